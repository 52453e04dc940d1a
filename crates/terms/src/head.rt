// The head of a node: its tag and what stands before its parts.
ghost use Rattle.std.specs.Prelude.{◌≡◌, ◌+◌, ◌<◌, ◌≤◌, length, IfOk, IfErr, MatchResult};
ghost use Rattle.terms.specs.Fitting.{LongestStart};
ghost use Rattle.terms.specs.Heads.{size_of, subjects_of, objects_of, binds_of, active_below, parts_of, head_of, OpensWith};

// The largest count of an output or an input.
const MOST_NAMES: u8 = 8;

// What kind of node it is, with its own numbers; the objects of an output follow its count.
#[derive(Clone, Copy, PartialEq, Eq, Debug)]
pub enum Head {
    Terminated,
    Output { subject: u8, count: u8 },
    Input { subject: u8, count: u8 },
    Choice,
    Parallel,
    Restriction { sort: u8 },
    Replication,
}

// How many processes a node has as its parts.
#[derive(Clone, Copy, PartialEq, Eq, Debug)]
pub enum Parts {
    Zero,
    One,
    Two,
}

impl Head {
    // The head at the start of the bytes, or the place of the first byte that cannot stand in one.
    pub fn read(bytes: &[u8]) -> Result<Head, usize>
        ensures answer { result ≡ head_of bytes.now }
        ensures opens { IfOk result (λ h. OpensWith h bytes.now) }
        ensures refused { IfErr result (λ place. LongestStart bytes.now place) }
        ensures within { MatchResult result (λ h. (0 < size_of h) × (size_of h ≤ length bytes.now) × (1 + subjects_of h + objects_of h ≤ size_of h) × (binds_of h ≤ 8)) (λ place. place ≤ length bytes.now) }
    {
        if bytes.is_empty() {
            return Err(0);
        }
        match bytes[0] {
            0 => Ok(Head::Terminated),
            1 | 2 if bytes.len() < 3 => Err(bytes.len()),
            1 | 2 if bytes[2] > MOST_NAMES => Err(2),
            1 if bytes.len() - 3 < usize::from(bytes[2]) => Err(bytes.len()),
            1 => Ok(Head::Output {
                subject: bytes[1],
                count: bytes[2],
            }),
            2 => Ok(Head::Input {
                subject: bytes[1],
                count: bytes[2],
            }),
            3 => Ok(Head::Choice),
            4 => Ok(Head::Parallel),
            5 if bytes.len() < 2 => Err(1),
            5 => Ok(Head::Restriction { sort: bytes[1] }),
            6 => Ok(Head::Replication),
            _ => Err(0),
        }
    }

    // How many bytes it takes, with its objects.
    pub fn size(self) -> usize
        ensures { result ≡ size_of self }
    {
        match self {
            Head::Output { count, .. } => 3 + usize::from(count),
            Head::Input { .. } => 3,
            Head::Restriction { .. } => 2,
            Head::Terminated | Head::Choice | Head::Parallel | Head::Replication => 1,
        }
    }

    // How many subjects stand after its tag.
    pub(crate) fn subjects(self) -> usize
        ensures { result ≡ subjects_of self }
    {
        match self {
            Head::Output { .. } | Head::Input { .. } => 1,
            Head::Terminated
            | Head::Choice
            | Head::Parallel
            | Head::Restriction { .. }
            | Head::Replication => 0,
        }
    }

    // How many of its last bytes are objects.
    pub fn objects(self) -> usize
        ensures { result ≡ objects_of self }
    {
        match self {
            Head::Output { count, .. } => usize::from(count),
            Head::Terminated
            | Head::Input { .. }
            | Head::Choice
            | Head::Parallel
            | Head::Restriction { .. }
            | Head::Replication => 0,
        }
    }

    // How many names it binds in its parts.
    pub fn binds(self) -> usize
        ensures { result ≡ binds_of self }
    {
        match self {
            Head::Input { count, .. } => usize::from(count),
            Head::Restriction { .. } => 1,
            Head::Terminated
            | Head::Output { .. }
            | Head::Choice
            | Head::Parallel
            | Head::Replication => 0,
        }
    }

    // Whether a part below it is active where it is.
    pub(crate) fn active_below(self) -> bool
        ensures { result ≡ active_below self }
    {
        match self {
            Head::Parallel | Head::Restriction { .. } => true,
            Head::Terminated
            | Head::Output { .. }
            | Head::Input { .. }
            | Head::Choice
            | Head::Replication => false,
        }
    }

    // How many parts it has.
    pub fn parts(self) -> Parts
        ensures { result ≡ parts_of self }
    {
        match self {
            Head::Terminated => Parts::Zero,
            Head::Output { .. }
            | Head::Input { .. }
            | Head::Restriction { .. }
            | Head::Replication => Parts::One,
            Head::Choice | Head::Parallel => Parts::Two,
        }
    }
}
