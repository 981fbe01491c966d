//! What is made of the items of a desk, once the read is over.
ghost use Rattle.std.specs.Prelude.{◌≡◌, ◌≤◌, List, length, IfOk, IfErr, IsErrOf, IsTrue, IsFalse};
ghost use Rattle.itip_state.specs.Kept.{AreKept};
ghost use Rattle.itip_view.specs.ByUid.{AreLeft, AreTooManyLeft, IsTextLeft};
ghost use Rattle.itip_view.specs.ListText.{IsListText};
ghost use Rattle.itip_view.specs.Rows.{AreRows, AreTooMany, row_limit};
ghost use Rattle.itip_view.specs.Showing.{Shows, AreRowsWhere, AreTooManyWhere, IsListTextFor};
ghost use Rattle.itip_view.specs.declared.row.Row.{Row};

use crate::error::PassError;
use itip_state::{SharedItem, State};
use itip_view::{Row, RowCount, RowsByUid, Wanted, Window, rows};
use std::alloc::Global;

/// The state of these items.
pub(crate) fn state_of(alloc: Global, items: &[SharedItem]) -> Result<State, PassError>
    ensures kept { IfOk result (λ state. AreKept state items.now) }
    ensures cause { IfErr result (λ e. e ≡ PassError.NoListMemory) }
{
    match State::of_shared(alloc, items) {
        Ok(state) => Ok(state),
        Err(_) => Err(PassError::NoListMemory),
    }
}

/// The text of the rows of a state in a window. Besides the text, only the rows of one UID are held.
pub(crate) fn text_in(alloc: Global, state: &State, window: Window) -> Result<Vec<u8>, PassError>
    ensures text { IfOk result (λ text. IsListText state.now window text.items) }
    ensures many { IsErrOf result PassError.TooManyRows → AreTooMany state.now window }
    ensures memory { IsErrOf result PassError.NoMemory → ⊥ }
    ensures entry { IsErrOf result PassError.NoEntry → ⊥ }
{
    let Ok(rows) = RowsByUid::of(alloc, state, window, &Wanted::all()) else {
        return Err(PassError::NoListMemory);
    };
    text_of(&rows)
}

/// The text of the rows of a state in a window that show the attendee with this address.
pub(crate) fn text_for(
    alloc: Global,
    state: &State,
    window: Window,
    address: &str,
) -> Result<Vec<u8>, PassError>
    ensures text { IfOk result (λ text. IsListTextFor address.now state.now window text.items) }
    ensures many { IsErrOf result PassError.TooManyRows → AreTooManyWhere (Shows address.now) state.now window }
    ensures memory { IsErrOf result PassError.NoMemory → ⊥ }
    ensures entry { IsErrOf result PassError.NoEntry → ⊥ }
{
    let wanted = Wanted::showing(Some(address));
    let Ok(rows) = RowsByUid::of(alloc, state, window, &wanted) else {
        return Err(PassError::NoListMemory);
    };
    text_of(&rows)
}

/// The text of rows, which are made one UID at a time.
fn text_of(rows: &RowsByUid<'_, '_>) -> Result<Vec<u8>, PassError>
    ensures text { IfOk result (λ text. IsTextLeft rows.now text.items) }
    ensures many { IsErrOf result PassError.TooManyRows → AreTooManyLeft rows.now }
    ensures memory { IsErrOf result PassError.NoMemory → ⊥ }
    ensures entry { IsErrOf result PassError.NoEntry → ⊥ }
{
    match rows.text() {
        Ok(text) => Ok(text),
        Err(fault) => Err(fault.into()),
    }
}

/// The rows of a state in a window.
pub(crate) fn rows_in(alloc: Global, state: &State, window: Window) -> Result<Vec<Row>, PassError>
    ensures rows { IfOk result (λ rows. AreRows state.now window rows.items) }
    ensures few { IfOk result (λ rows. length rows.items ≤ row_limit) }
    ensures many { IsErrOf result PassError.TooManyRows → AreTooMany state.now window }
    ensures memory { IsErrOf result PassError.NoMemory → ⊥ }
    ensures entry { IsErrOf result PassError.NoEntry → ⊥ }
{
    match rows(alloc, state, window) {
        Ok(rows) => Ok(rows),
        Err(fault) => Err(fault.into()),
    }
}

/// The rows of a state in a window that show the attendee with this address, at most 100,000. They are counted before any is made.
pub(crate) fn rows_for(
    alloc: Global,
    state: &State,
    window: Window,
    address: &str,
) -> Result<Vec<Row>, PassError>
    ensures rows { IfOk result (λ rows. AreRowsWhere (Shows address.now) state.now window rows.items) }
    ensures few { IfOk result (λ rows. length rows.items ≤ row_limit) }
    ensures many { IsErrOf result PassError.TooManyRows → AreTooManyWhere (Shows address.now) state.now window }
    ensures memory { IsErrOf result PassError.NoMemory → ⊥ }
    ensures entry { IsErrOf result PassError.NoEntry → ⊥ }
{
    let shown = Wanted::showing(Some(address));
    let Ok(rows) = RowsByUid::of(alloc, state, window, &shown) else {
        return Err(PassError::NoListMemory);
    };
    let many = are_too_many(&rows)?;
    if many {
        return Err(PassError::TooManyRows);
    }
    match rows.to_vec() {
        Ok(rows) => Ok(rows),
        Err(_) => Err(PassError::NoListMemory),
    }
}

/// Whether more rows are left than a list may have. They are counted, and none is made.
fn are_too_many(rows: &RowsByUid<'_, '_>) -> Result<bool, PassError>
    ensures many { IfOk result (λ many. IsTrue many → AreTooManyLeft rows.now) }
    ensures few { IfOk result (λ many. IsFalse many → (all : List Row) → AreLeft rows.now all → length all ≤ row_limit) }
    ensures cause { IfErr result (λ e. e ≡ PassError.NoListMemory) }
{
    match rows.count() {
        Ok(RowCount::Few(_)) => Ok(false),
        Ok(RowCount::TooMany(_)) => Ok(true),
        Err(_) => Err(PassError::NoListMemory),
    }
}
