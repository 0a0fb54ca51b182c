// Places in a text as they are shown.
use row_script::fault::Fault;
use std::alloc::Global;
use syntax_trees::Span;

/// What there is at a place.
pub fn show_at(alloc: Global, what: &str, span: Span) -> Result<String, Fault> {
    let Span { start, end } = span;
    Ok(format!(in alloc; "{what} at {start}-{end}")?)
}

/// Where a name stands for the second time.
pub fn show_doubled(alloc: Global, at: u32) -> Result<String, Fault> {
    Ok(format!(in alloc; "doubled at {at}")?)
}
