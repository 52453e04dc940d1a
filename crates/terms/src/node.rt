// A term is taken apart into its topmost node and the terms below it.
ghost use Rattle.std.specs.Prelude.{◌≡◌, ◌≤◌, ℕ, Some, take, drop};
ghost use Rattle.terms.specs.Reading.{scan, size_in, AreTwo};
ghost use Rattle.terms.specs.Views.{bytes_of, tree, process_of, count_of};

use crate::head::Head;
use crate::reading::size_at_start;
use crate::term::{Term, known};

// The topmost node of a term, with what stands in it and below it.
#[derive(Clone, Copy, PartialEq, Eq, Debug)]
pub enum Node<'a> {
    Terminated,
    Output {
        subject: u8,
        objects: &'a [u8],
        continuation: Term<'a>,
    },
    Input {
        subject: u8,
        count: u8,
        continuation: Term<'a>,
    },
    Choice(Term<'a>, Term<'a>),
    Parallel(Term<'a>, Term<'a>),
    Restriction {
        sort: u8,
        body: Term<'a>,
    },
    Replication(Term<'a>),
}

impl<'a> Term<'a> {
    // Its topmost node.
    pub fn node(&self) -> Node<'a>
        ensures process { process_of result ≡ tree self.now }
        ensures few { count_of result ≤ 8 }
    {
        let bytes = self.bytes();
        let Ok(head) = Head::read(bytes) else {
            unreachable()
        };
        let size = head.size();
        let below = &bytes[size..];
        match head {
            Head::Terminated => Node::Terminated,
            Head::Output { subject, .. } => Node::Output {
                subject,
                objects: &bytes[3..size],
                continuation: known(below),
            },
            Head::Input { subject, count } => Node::Input {
                subject,
                count,
                continuation: known(below),
            },
            Head::Choice => {
                let (left, right) = both(below);
                Node::Choice(left, right)
            }
            Head::Parallel => {
                let (left, right) = both(below);
                Node::Parallel(left, right)
            }
            Head::Restriction { sort } => Node::Restriction {
                sort,
                body: known(below),
            },
            Head::Replication => Node::Replication(known(below)),
        }
    }
}

// The two terms that the bytes are, one after the other.
fn both(bytes: &[u8]) -> (Term<'_>, Term<'_>)
    requires { AreTwo bytes.now }
    ensures { (n : ℕ) → Some n ≡ size_in (scan bytes.now) → (bytes_of result.0 ≡ take n bytes.now) × (bytes_of result.1 ≡ drop n bytes.now) }
{
    let Some(size) = size_at_start(bytes) else {
        unreachable()
    };
    let (first, second) = bytes.split_at(size);
    (known(first), known(second))
}
