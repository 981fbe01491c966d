//! The exit statuses.
ghost use Rattle.std.specs.Prelude.{◌≡◌};
ghost use Rattle.itip_app.specs.Status.{status_refused};

/// The words are bad.
pub(crate) const BAD_WORDS: u8 = 2;

/// Reading, writing, memory or the clock failed.
pub(crate) const FAULT: u8 = 3;

/// What was asked for can't be done, or the file of a desk is refused.
pub(crate) const NOT_DONE: u8 = 4;

/// The exit status of what was done: 1 if something was refused, else 0.
pub(crate) fn refused_status(is_refused: bool) -> u8
    ensures { result ≡ status_refused is_refused }
{
    if is_refused { 1 } else { 0 }
}
