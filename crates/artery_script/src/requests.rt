ghost use Rattle.std.specs.Prelude.{◌≡◌, ◌≤◌, ◌==◌, [], ◌∷◌, ◌++◌, length, OnOk, OnErr};
ghost use Rattle.artery_base.specs.Words.{Gives};
ghost use Rattle.artery_lines.specs.Lines.{lines_of};
ghost use Rattle.artery_script.specs.Scripts.{most_lines, request_line, told_at, items_from, requests_of, script_memory};

use crate::request_text::read_request;
use crate::script::{ScriptFault, is_passed_over};
use artery_base::{NoMemory, Request};
use artery_lines::{LineFault, TextLines, has_few_lines};
use std::alloc::Global;
use std::marker::Model;

/// A request line of a node: its number, and what is asked.
#[derive(Debug, PartialEq, Eq, Drop)]
pub struct RequestLine {
    /// The number of the line in the text, counted from 1, empty lines and remarks counted.
    pub line: u64,
    /// Whether the message is for the incarnation that its sender saw last, and for no other.
    pub same: bool,
    /// What is asked.
    pub request: Request,
}

/// The requests of a node with the numbers of their lines, in order.
#[derive(Debug, Drop)]
pub struct Requests {
    items: Vec<RequestLine>,
}

impl Model for Requests {
    ghost use Rattle.std.specs.Prelude.{List};
    ghost use Rattle.artery_script.specs.declared.requests.RequestLine.{RequestLine};

    ghost Value = { List RequestLine };

    ghost view = { λ s. s.items.items };
}

impl Requests {
    /// No requests. Takes no memory.
    pub fn new(alloc: Global) -> Requests
        ensures { result ≡ [] }
    {
        Requests {
            items: Vec::new(alloc),
        }
    }

    /// How many requests there are.
    pub fn len(&self) -> usize
        ensures { result ≡ length self.now }
    {
        self.items.len()
    }

    /// Whether there are none.
    pub fn is_empty(&self) -> bool
        ensures { result ≡ (length self.now == 0) }
    {
        self.items.is_empty()
    }

    /// The requests with the numbers of their lines, borrowed.
    pub fn as_slice(&self) -> &[RequestLine]
        ensures { result.now ≡ self.now }
    {
        self.items.as_slice()
    }

    /// Adds a request at the end. Without memory nothing changes.
    pub fn push(&mut self, line: RequestLine) -> Result<(), NoMemory>
        ensures ok { OnOk result (self.new ≡ self.old ++ line ∷ []) }
        ensures err { OnErr result (self.new ≡ self.old) }
    {
        self.items.push(line)?;
        Ok(())
    }
}

fn line_at(alloc: Global, n: u64, text: &[u8]) -> Result<RequestLine, ScriptFault>
    ensures { Gives script_memory result (told_at n (request_line n text.now)) }
{
    match read_request(alloc, text) {
        Ok((same, request)) => Ok(RequestLine {
            line: n,
            same,
            request,
        }),
        Err(LineFault::BadLine) => Err(ScriptFault::BadLine { line: n }),
        Err(LineFault::NoMemory) => Err(ScriptFault::NoMemory),
    }
}

#[tactic(auto, using(crate::proofs::Items::request_passed, crate::proofs::Items::request_on, crate::proofs::Items::request_fails, crate::proofs::Items::requests_end))]
fn read_lines(alloc: Global, text: &[u8]) -> Result<Requests, ScriptFault>
    requires { length (lines_of text.now) ≤ most_lines }
    ensures { Gives script_memory result (items_from request_line 1 (lines_of text.now)) }
{
    let mut left = TextLines::new(text);
    let mut requests = Requests::new(alloc);
    let mut n = 0;
    while let Some(line) = left.next() {
        n += 1;
        if is_passed_over(line) {
            continue;
        }
        let item = line_at(alloc, n, line)?;
        requests.push(item)?;
    }
    Ok(requests)
}

/// The requests that the input of a node tells, one a line; `same` may stand before `send` and
/// `tell`. Lines end with a line feed, which the last may lack. Empty lines and lines that begin
/// with `#` are passed over and still counted. `TooManyLines` where there are more than 1,000,000
/// lines; else `BadLine` names the first line that tells no request.
pub fn read_requests(alloc: Global, text: &[u8]) -> Result<Requests, ScriptFault>
    ensures exact { Gives script_memory result (requests_of text.now) }
{
    if !has_few_lines(text) {
        return Err(ScriptFault::TooManyLines);
    }
    read_lines(alloc, text)
}
