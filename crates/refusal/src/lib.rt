// Refusals (§7.51), each with a reason, which has a number, and a position; what a check answers; and answers as plain numbers.
#![tactic(auto)]

ghost use Rattle.std.specs.Prelude.{ℕ, ◌≡◌, List, [], ◌∷◌, Err};
ghost use Rattle.refusal.specs.Index.{plain_index};
ghost use Rattle.refusal.specs.Refusal.{refusal, reason_number, number_of, position_of, kind_of, index_of, plain_refusal, plain_answer};

// What a refusal's position counts, from 0: §7.52, and §7.53 for which number counts what.
#[derive(Clone, Copy, Debug, PartialEq, Eq)]
pub enum Position {
    Nothing,
    Entry(usize),
    Place(usize),
    Node(usize),
    Record(usize),
}

impl Position {
    // The kind as a plain number: §8.2.
    pub fn kind(self) -> u32
        ensures { result ≡ kind_of self }
    {
        match self {
            Position::Nothing => 0,
            Position::Entry(_) => 1,
            Position::Place(_) => 2,
            Position::Node(_) => 3,
            Position::Record(_) => 4,
        }
    }

    // The index as a plain number, 0 if the position counts nothing: §7.52.
    pub fn index(self) -> usize
        ensures { result ≡ index_of self }
    {
        match self {
            Position::Nothing => 0,
            Position::Entry(i) => i,
            Position::Place(i) => i,
            Position::Node(i) => i,
            Position::Record(i) => i,
        }
    }
}

// The limits: of P, T, V and K of a schedule, of a log's firings, of weights and counts, and the words of scratch that a call asks for.
#[derive(Clone, Copy)]
pub struct Limits {}

impl Limits {
    pub const PLACES: u32 = 32; // §1.3

    pub const TRANSITIONS: u32 = 32; // §1.3

    pub const NODES: u32 = 128; // §1.4

    pub const ENTRIES: u32 = 4096; // §1.4

    pub const FIRINGS: u32 = 4096; // §1.9

    pub const COUNT: u32 = 1000000000; // §1.5

    pub const SCRATCH: usize = 8192; // §1.6
}

// Why a word, a schedule or a call is refused: each reason has the number of its clause, which is its discriminant, and the trade's word for it.
#[derive(Clone, Copy, Debug, PartialEq, Eq)]
pub enum Reason {
    NetLength = 1, // §7.1, ragged net
    NetSize = 2, // §7.2, net size
    NetOrder = 3, // §7.3, net order
    NetWeight = 4, // §7.4, net weight
    NoSource = 5, // §7.5, no source
    ScheduleLength = 6, // §7.6, ragged sheet
    ScheduleSize = 7, // §7.7, sheet size
    ScheduleOrder = 8, // §7.8, sheet order
    ScheduleValue = 9, // §7.9, sheet value
    WrongStart = 10, // §7.10, wrong start
    NoArc = 11, // §7.11, dead end
    NotOneChoiceSet = 12, // §7.12, torn choice
    RootNotAwait = 13, // §7.13, busy root
    NotHeld = 14, // §7.14, starved arc
    WrongTarget = 15, // §7.15, wrong landing
    NotReached = 16, // §7.16, stray node
    NoPathToAwait = 17, // §7.17, no way home
    NoSuchNode = 18, // §7.18, no such node
    WrongCounts = 19, // §7.19, walker astray
    NotOffered = 20, // §7.20, not offered
    SmallScratch = 21, // §7.21, small scratch
    SmallOutput = 22, // §7.22, small out
    LogShape = 23, // §7.23, no record
    WrongNode = 24, // §7.24, logged node differs
    NoCountsFit = 25, // §7.25, no counts fit
    StartOverCapacity = 26, // §7.26, overfull start
    OverCapacity = 27, // §7.27, over capacity
    WrongNumber = 28, // §7.28, wrong number of sheets
    TooLarge = 29, // §7.29, too many
    Dependent = 30, // §7.30, dependent
    BrokenWord = 31, // §7.31, broken word
    BadDuration = 32, // §7.32, bad duration
    EndlessReaction = 33, // §7.33, endless reaction
}

impl Reason {
    // Its number: §7.51.
    pub fn number(self) -> u32
        ensures { result ≡ reason_number self }
    {
        self as u32
    }
}

// A refusal: why, and where. Its position is an enum of the kinds, each with its index: §13.8.
#[derive(Clone, Copy, Debug, PartialEq, Eq)]
pub struct Refusal {
    pub reason: Reason,
    pub at: Position,
}

impl Refusal {
    // The plain numbers of a refused answer: §8.1, §8.3.
    pub fn plain(self) -> [u64; 6]
        ensures { result ≡ plain_refusal self }
    {
        let at = self.at;
        [
            self.reason.number() as u64,
            at.kind() as u64,
            at.index() as u64,
            0,
            0,
            0,
        ]
    }
}

// What a check without numbers of its own answers.
pub type Verdict = Result<(), Refusal>;

// Refused for a reason at a position.
pub fn refuse(reason: Reason, at: Position) -> Verdict
    ensures { result ≡ Err (refusal reason at) }
{
    Err(Refusal { reason, at })
}

// A verdict's number, 0 if accepted: §7.51.
pub fn number(verdict: Verdict) -> u32
    ensures { result ≡ number_of verdict }
{
    match verdict {
        Ok(()) => 0,
        Err(r) => r.reason.number(),
    }
}

// A verdict's position, `Nothing` if accepted: §7.51.
pub fn at(verdict: Verdict) -> Position
    ensures { result ≡ position_of verdict }
{
    match verdict {
        Ok(()) => Position::Nothing,
        Err(r) => r.at,
    }
}

// What an accepted call tells besides: three numbers of its own, 0 where it has fewer (§8.1, §8.4).
pub trait Numbers {
    ghost numbers: { Self → List ℕ };

    fn numbers(self) -> [u64; 3]
        ensures { result ≡ numbers self };
}

// A call without numbers of its own.
impl Numbers for () {
    ghost numbers = { λ _. 0 ∷ 0 ∷ 0 ∷ [] };

    fn numbers(self) -> [u64; 3] {
        [0u64, 0, 0]
    }
}

// A call that tells how many words it wrote.
impl Numbers for usize {
    ghost numbers = { λ n. n ∷ 0 ∷ 0 ∷ [] };

    fn numbers(self) -> [u64; 3] {
        [self as u64, 0, 0]
    }
}

// The plain numbers of an answer: 0 three times and then the call's own, or those of its refusal (§8.1, §8.3).
pub fn plain<A: Numbers>(answer: Result<A, Refusal>) -> [u64; 6]
    ensures { result ≡ plain_answer A.numbers answer }
{
    match answer {
        Ok(accepted) => {
            let own = accepted.numbers();
            [0u64, 0, 0, own[0], own[1], own[2]]
        }
        Err(r) => r.plain(),
    }
}

// The plain number of a number that can be missing, as an entry's index or a capacity: §8.4.
pub fn plain_index(index: Option<u32>) -> u64
    ensures { result ≡ plain_index index }
{
    match index {
        Some(i) => i as u64 + 1,
        None => 0,
    }
}
