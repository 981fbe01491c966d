//! A window of days.
ghost use Rattle.std.specs.Prelude.{◌≡◌, ◌↔◌, IsOk, IfOk};
ghost use Rattle.itip_view.specs.Window.{IsWindow};

use crate::error::BadWindow;
use itip_moment::Day;

/// The days from `from` up to but not including `to`, both counted from 1970-01-01: at least 1 day, at most 3,660.
#[derive(Clone, Copy, Debug, PartialEq, Eq)]
pub struct Window {
    pub from: i32,
    pub to: i32,
    pub ghost lawful: { IsWindow from to },
}

impl Window {
    ghost use Rattle.itip_view.specs.InWindow.{is_in_window};

    /// The window of the days `from <= day < to`. Returns [`BadWindow`] if `to <= from`, or if there are more than 3,660 days.
    pub fn new(from: i32, to: i32) -> Result<Window, BadWindow>
        ensures lawful { IsOk result ↔ IsWindow from to }
        ensures window { IfOk result (λ w. (w.from ≡ from) × (w.to ≡ to)) }
    {
        let days = to as i64 - from as i64;
        if days < 1 || days > 3_660 {
            return Err(BadWindow);
        }
        Ok(Window { from, to })
    }

    /// The window from one day up to but not including another. Fails like [`new`](Window::new).
    pub fn of(from: Day, to: Day) -> Result<Window, BadWindow>
        ensures lawful { IsOk result ↔ IsWindow from.number to.number }
        ensures window { IfOk result (λ w. (w.from ≡ from.number) × (w.to ≡ to.number)) }
    {
        Window::new(from.number, to.number)
    }

    /// Whether a day is in the window; `None`, for what has no day, is in every window.
    pub fn has(self, day: Option<i32>) -> bool
        ensures { result ≡ is_in_window self day }
    {
        match day {
            Some(day) => self.from <= day && day < self.to,
            None => true,
        }
    }
}
