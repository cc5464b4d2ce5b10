// The laws of the layout, in a contract each can be cited by.
ghost use Rattle.layout.specs.Laws.{WrittenBegins, HeldIsNarrow, PassingJoins, RestFollows, LayoutIsFree};
ghost use Rattle.layout.specs.Records.{RecordsHold};

// What is written so far begins the layout of every continuation; what is held back measures at most
// the margin; passing in pieces is passing at once; at the end the rest follows; and a layout is one
// of the free writings of its tokens.
pub fn layout_laws()
    ensures begins { WrittenBegins }
    ensures narrow { HeldIsNarrow }
    ensures joins { PassingJoins }
    ensures rest { RestFollows }
    ensures free { LayoutIsFree }
{}

// The sample records at margin 16 are laid out as the table says.
pub fn sample_records()
    ensures { RecordsHold }
{}
