// The operations, and what a case of each consists of.
use super::cases::Stop;

// What a case asks for: one of the calls, with the larger scratch or with the small panel's.
#[derive(Clone, Copy, Debug, PartialEq, Eq)]
pub(crate) enum Operation {
    NetCheck,
    SheetCheck,
    PlaceBounds,
    FreshWalker,
    Firing,
    Run,
    MinimalForm,
    Weights,
    Replay,
    Mending,
    Composition,
    Trimming,
    ReactionTimes,
    Comparison,
    PlainCheck,
    PanelCheck,
    PanelBounds,
    PanelFiring,
    PanelRun,
    PanelForm,
    PanelReplay,
    PanelMending,
}

// The operation of a number. The panel's have 100 more than the same call with the larger scratch.
impl TryFrom<u32> for Operation {
    type Error = Stop;

    fn try_from(number: u32) -> Result<Operation, Stop> {
        Ok(match number {
            1 => Operation::NetCheck,
            2 => Operation::SheetCheck,
            3 => Operation::PlaceBounds,
            4 => Operation::FreshWalker,
            5 => Operation::Firing,
            6 => Operation::Run,
            7 => Operation::MinimalForm,
            8 => Operation::Weights,
            9 => Operation::Replay,
            10 => Operation::Mending,
            11 => Operation::Composition,
            12 => Operation::Trimming,
            13 => Operation::ReactionTimes,
            14 => Operation::Comparison,
            15 => Operation::PlainCheck,
            102 => Operation::PanelCheck,
            103 => Operation::PanelBounds,
            105 => Operation::PanelFiring,
            106 => Operation::PanelRun,
            107 => Operation::PanelForm,
            109 => Operation::PanelReplay,
            110 => Operation::PanelMending,
            _ => return Err(Stop::NoSuchCall),
        })
    }
}

// How many words a part of a case has: the case tells it before them, or each case of the operation has as many.
#[derive(Clone, Copy, Debug, PartialEq, Eq)]
pub(crate) enum Length {
    Told,
    Known(usize),
}

// What a case has besides its net, in this order: numbers, sheets, and words; how many output buffers its call is lent, and whether it is lent two more, whose
// numbers have 64 bits.
#[derive(Clone, Copy, Debug, PartialEq, Eq)]
pub(crate) struct Shape {
    pub numbers: usize,
    pub sheets: usize,
    pub words: Length,
    pub outs: usize,
    pub totals: bool,
}

impl Shape {
    // Whether the call is lent scratch: each that has a sheet is.
    pub(crate) fn scratch(self) -> bool {
        0 < self.sheets
    }
}

impl Operation {
    // The words are a record, a log or durations; a walker, which is a node and 32 counts, and a transition; or a transition and a place.
    pub(crate) fn shape(self) -> Shape {
        let net = Shape {
            numbers: 0,
            sheets: 0,
            words: Length::Known(0),
            outs: 0,
            totals: false,
        };
        let sheet = Shape { sheets: 1, ..net };
        match self {
            Operation::NetCheck | Operation::FreshWalker => net,
            Operation::Weights => Shape {
                words: Length::Known(2),
                ..net
            },
            Operation::SheetCheck | Operation::PlainCheck | Operation::PanelCheck => sheet,
            Operation::Firing | Operation::PanelFiring => Shape {
                words: Length::Known(34),
                ..sheet
            },
            Operation::PlaceBounds
            | Operation::PanelBounds
            | Operation::MinimalForm
            | Operation::PanelForm => Shape { outs: 1, ..sheet },
            Operation::Run | Operation::PanelRun | Operation::ReactionTimes => Shape {
                words: Length::Told,
                outs: 1,
                ..sheet
            },
            Operation::Replay | Operation::PanelReplay => Shape {
                words: Length::Told,
                totals: true,
                ..sheet
            },
            Operation::Mending | Operation::PanelMending | Operation::Trimming => {
                Shape { outs: 2, ..sheet }
            }
            Operation::Comparison => Shape {
                sheets: 2,
                outs: 2,
                ..net
            },
            Operation::Composition => Shape {
                numbers: 1,
                sheets: 4,
                outs: 1,
                ..net
            },
        }
    }
}
