// Why a call declines.
ghost use Rattle.std.specs.Prelude.{◌≡◌};
ghost use Rattle.deck.specs.Causes.{number};

// The causes of document 01, "When the planner declines", in the order in which they are tried, each with its number. The definition
// `number` has the same numbers (specs/Causes.antt).
#[derive(Clone, Copy, Debug, PartialEq, Eq)]
pub enum Cause {
    // One to seven bytes.
    ShortSheet = 1,
    // A header byte outside its range.
    BadHeader = 2,
    // The directory cut off or breaking a pair's rule.
    BadDirectory = 3,
    // A grid byte above 5.
    BadGrid = 4,
    // A start off grid, blocked or shared.
    BadStart = 5,
    // A goal off grid or blocked.
    BadGoal = 6,
    // Two tasks with one last goal.
    SharedLastGoal = 7,
    // A carrier or task number not below m.
    BadNumber = 8,
    // A constraint list that breaks its rules.
    BadRecords = 9,
    // A count m outside 1 to 12, or a table not m × m.
    BadCount = 12,
    // The workspace short.
    ShortWorkspace = 10,
    // The output short, or paths not exactly m × (H + 1).
    WrongLength = 11,
}

impl From<Cause> for u8 {
    ghost from_gives = { λ c n. n ≡ number c };

    // Kept: this is the conversion that others call, so that the cast stands here alone.
    fn from(cause: Cause) -> u8 {
        cause as u8
    }
}
