//! Watching how commands are answered.
ghost use Rattle.std.specs.Prelude.{◌≡◌};

use itip_desk::Refusal;
use itip_view::MostRows;

/// Why a command was refused.
#[derive(Debug, Drop)]
pub struct Refused {
    pub refusal: Refusal,
    /// If there are too many rows, the to-do with the most of them.
    pub most: Option<MostRows>,
}

impl Refused {
    /// There are too many rows, and this to-do has the most of them.
    pub(crate) fn of_most(most: MostRows) -> Refused
        ensures { result.refusal ≡ Refusal.TooManyRows }
    {
        Refused {
            refusal: Refusal::TooManyRows,
            most: Some(most),
        }
    }
}

/// Is told how the commands of a script or a stream were answered. Nothing that is read or written depends on it.
pub trait Watch {
    /// The next command was answered, or refused. `command` is what it is called, such as `take`.
    fn answered(&mut self, command: &'static str, refused: Option<&Refused>);

    /// The script was refused as a whole.
    fn refused_script(&mut self, refusal: Refusal);
}

impl Watch for () {
    fn answered(&mut self, _command: &'static str, _refused: Option<&Refused>) {}

    fn refused_script(&mut self, _refusal: Refusal) {}
}
