//! How a reader goes from token to token.
ghost use Rattle.std.specs.Prelude.{◌≡◌, ◌+◌, ◌^◌, ◌<◌, ◌≤◌, [], ◌∷◌, length, MatchOption};
ghost use Rattle.tokens.specs.declared.reader.Stage.TheVariants.{Between, Ended};
ghost use Rattle.tokens.specs.Shapes.{CutRightly};
ghost use Rattle.tokens.specs.Text.{comment, lines};
ghost use Rattle.tokens.specs.Tokens.{toks, tokens_of, line_rest, seen, left};

use crate::reader::{Reader, Stage, Token};
use crate::text::{bytes_before, trim};

/// Whether a line is skipped.
fn is_comment(line: &[u8]) -> bool
    ensures { result ≡ comment line.now }
{
    line.first() == Some(&b'#')
}

impl<'a> Reader<'a> {
    /// A reader of the lines that follow a line. A step of its own, so that what `new` promises of a whole
    /// sheet is proved of its call.
    fn after_line(rest: &'a [u8], line: usize) -> Reader<'a>
        requires { line + length rest.now ≤ 2 ^ 63 }
        ensures tokens { left result ≡ toks (line + 1) (lines rest.now) }
        ensures format { CutRightly }
    {
        Reader {
            rest,
            stage: Stage::Between,
            line,
        }
    }

    /// A reader at the start of a sheet. It will hand on the tokens of the sheet's lines and fields,
    /// which are cut as the format says.
    pub fn new(sheet: &'a [u8]) -> Reader<'a>
        ensures tokens { left result ≡ tokens_of sheet.now }
        ensures format { CutRightly }
    {
        Reader::after_line(sheet, 0)
    }

    /// The end of the current line.
    fn end_line(&mut self) -> Token<'a>
        requires { self.old.stage ≡ Ended }
        ensures { left self.old ≡ seen result ∷ left self.new }
    {
        self.stage = Stage::Between;
        Token::LineEnd { line: self.line }
    }

    /// The next field of the current line, of which `body` is left after its field `field`.
    fn next_field(&mut self, body: &'a [u8], field: usize) -> Token<'a>
        requires { field + length body.now < 2 ^ 63 }
        ensures { line_rest self.old.line field body.now self.old.rest.now ≡ seen result ∷ left self.new }
    {
        let field = field + 1;
        let end = bytes_before(body, b';');
        self.stage = match body.get(end + 1..) {
            Some(body) => Stage::Inside { body, field },
            None => Stage::Ended,
        };
        Token::Field {
            text: trim(&body[..end]),
            line: self.line,
            field,
        }
    }

    /// Goes on to the next line that is not skipped: its text, or None where there is none.
    fn next_line(&mut self) -> Option<&'a [u8]>
        requires { self.old.stage ≡ Between }
        ensures { MatchOption result ((left self.old ≡ []) × (left self.new ≡ [])) (λ body. (length body.now < 2 ^ 63) × (left self.old ≡ line_rest self.new.line 0 body.now self.new.rest.now)) }
    {
        while !self.rest.is_empty() {
            let rest = self.rest;
            let end = bytes_before(rest, b'\n');
            let line = &rest[..end];
            self.line += 1;
            self.rest = rest.get(end + 1..).unwrap_or(&[]);
            if !is_comment(line) {
                return Some(line);
            }
        }
        None
    }
}

impl<'a> Iterator for Reader<'a> {
    ghost use Rattle.std.specs.Iterator.{item_count};
    ghost use Rattle.tokens.specs.Tokens.{left, Next};

    type Item = Token<'a>;

    ghost next_gives = { Next };

    ghost remaining = { item_count left };

    /// The next token, or None at the end of the sheet.
    fn next(&mut self) -> Option<Token<'a>> {
        match self.stage {
            Stage::Ended => Some(self.end_line()),
            Stage::Inside { body, field } => Some(self.next_field(body, field)),
            Stage::Between => {
                let body = self.next_line()?;
                Some(self.next_field(body, 0))
            }
        }
    }
}
