//! A reader over the bytes of a sheet, and the tokens that it hands on.
ghost use Rattle.std.specs.Prelude.{◌+◌, ◌^◌, ◌≤◌, length};
ghost use Rattle.tokens.specs.Stages.{most_fields};

mod scan;

/// A part of a sheet: a field, or the end of a line. A field's text is the sheet's own bytes, without
/// the spaces around it. Lines are counted from 1 through the whole sheet, skipped lines too, and
/// fields from 1 in each line.
#[derive(Clone, Copy)]
pub enum Token<'a> {
    Field {
        text: &'a [u8],
        line: usize,
        field: usize,
    },
    LineEnd {
        line: usize,
    },
}

/// Where a reader stands in its current line.
#[derive(Clone, Copy)]
pub(crate) enum Stage<'a> {
    /// Before a line, or at the end of the sheet.
    Between,
    /// In a line, with a field to come.
    Inside {
        /// What is left of the line.
        body: &'a [u8],
        /// The last field handed on of the line, or 0 before its first.
        field: usize,
    },
    /// In a line, after its last field.
    Ended,
}

/// A reader that hands on the tokens of a sheet one by one.
#[derive(Drop)]
pub struct Reader<'a> {
    /// The bytes after the current line.
    rest: &'a [u8],
    stage: Stage<'a>,
    /// The current line, or 0 before the first.
    line: usize,
    ghost lines_fit: { line + length rest.now ≤ 2 ^ 63 },
    ghost fields_fit: { most_fields stage ≤ 2 ^ 63 },
}
