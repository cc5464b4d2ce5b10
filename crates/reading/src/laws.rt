// What is shown of every lawful set of rules, in a contract that can be cited.
ghost use Rattle.grammar.specs.Laws.{Laws};
ghost use Rattle.rules.specs.Rules.{Rules};
ghost use Rattle.rules.specs.Machine.{grammar_of};
ghost use Rattle.rules.specs.Lawful.{Lawful};
ghost use Rattle.reading.specs.Story.{Tells};
ghost use Rattle.reading.specs.Judging.{AcceptsDocuments, WordsInPlace, ThreeIfHopeless, FourIfLong, FiveIfDeep, SixIfUnfinished};

// The bytes accepted are the documents that keep the limits, with their words in their places.
pub fn accepts_documents()
    ensures documents { (r : Rules) → Lawful r → AcceptsDocuments r }
    ensures places { (r : Rules) → Lawful r → WordsInPlace r }
{}

// Each refusal comes exactly where it should.
pub fn refuses_rightly()
    ensures three { (r : Rules) → Lawful r → ThreeIfHopeless r }
    ensures four { (r : Rules) → Lawful r → FourIfLong r }
    ensures five { (r : Rules) → Lawful r → FiveIfDeep r }
    ensures six { (r : Rules) → SixIfUnfinished r }
{}

// The machine is a grammar.
pub fn shows_the_laws()
    ensures { (r : Rules) → Lawful r → Laws (grammar_of r) }
{}

// What a word reader hands out of a text: its words where they stand, or those before a refusal.
pub fn tells_the_words()
    ensures { (r : Rules) → Lawful r → Tells r }
{}
