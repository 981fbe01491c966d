//! What a call says if an allocation fails.

/// What is said if an allocation of the call under test itself failed. `tools/refusals` counts it.
const REFUSED: &str = "the call was refused memory";

/// Says on standard error that an allocation of the call under test failed.
pub(crate) fn note_refusal<R: Eprint>(rt: &R) {
    let _ = rt.eprintln(REFUSED);
}
