// Pointers are tested and renamed.
ghost use Rattle.std.specs.Prelude.{◌≡◌, ℕ, ◌<◌, ◌≤◌, Bool};
ghost use Rattle.calculus.specs.Names.{exchange, send};
ghost use Rattle.terms.specs.Pointers.{function_of, any_of, Tests};

// What is done to every pointer of a term. A closed set, chosen by name and told apart in one match: with a closure for each,
// a caller's proof would have to say again what the closure does.
#[derive(Clone, Copy, PartialEq, Eq, Debug)]
pub enum Renaming<'a> {
    // free pointers rise by 1
    Raise,
    // free pointers fall by 1
    Lower,
    // the first two free pointers trade places
    Exchange,
    // the objects are put for as many of the first free pointers, and the others fall by that number
    Send(&'a [u8]),
}

impl Renaming<'_> {
    // What becomes of a pointer at a depth.
    #[tactic(auto, unfolding(crate::specs::Pointers::function_of, calculus::specs::Names::raise, calculus::specs::Names::lower, calculus::specs::Names::exchange, calculus::specs::Names::send))]
    pub(crate) fn apply(&self, depth: usize, pointer: u8) -> usize
        ensures { result ≡ function_of self.now depth pointer }
    {
        let pointer = usize::from(pointer);
        if pointer < depth {
            return pointer;
        }
        match self {
            Renaming::Raise => pointer + 1,
            Renaming::Lower => pointer.saturating_sub(1),
            Renaming::Exchange => traded(depth, pointer),
            Renaming::Send(objects) => sent(objects, depth, pointer),
        }
    }
}

// The two pointers from the depth on trade places. Depth and pointer are two numbers, as in the definition: a struct of both
// would be taken apart at once.
#[tactic(auto, unfolding(calculus::specs::Names::exchange))]
fn traded(depth: usize, pointer: usize) -> usize
    requires free { depth ≤ pointer }
    requires small { pointer < 256 }
    ensures { result ≡ exchange depth pointer }
{
    if pointer == depth {
        depth + 1
    } else if pointer == depth + 1 {
        depth
    } else {
        pointer
    }
}

// An object is put for a pointer, or the pointer falls by the number of objects.
#[tactic(auto, unfolding(calculus::specs::Names::send))]
fn sent(objects: &[u8], depth: usize, pointer: usize) -> usize
    requires free { depth ≤ pointer }
    requires small { pointer < 256 }
    ensures { result ≡ send objects.now depth pointer }
{
    match objects.get(pointer - depth) {
        Some(object) => usize::from(*object) + depth,
        None => pointer - objects.len(),
    }
}

// Whether some pointer of a row, all at one depth, passes a test. What is asked of a closure, and what is promised of it, is
// said in each function that takes it: no type that could say it once is as plain as these two words.
pub(crate) fn any_passes<F: Fn(usize, u8) -> bool>(test: &F, depth: usize, pointers: &[u8]) -> bool
    requires { F.IsAlwaysCallable test.now }
    ensures { (known : ℕ → ℕ → Bool) → Tests (F.post test.now) known → result ≡ any_of (known depth) pointers.now }
{
    pointers.iter().any(|pointer| test(depth, *pointer))
}
