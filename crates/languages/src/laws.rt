// What is shown of the two languages, in a contract each can be cited by.
// One function for each language: languages are definitions here, and no types to be generic over.
ghost use Rattle.languages.specs.Both.{JsonIsRead, SexprsAreRead};
ghost use Rattle.languages.specs.Readings.{RecordsRead};

// JSON is read: what is accepted, each refusal, the words and where they stand, the laws of a grammar.
pub fn json_is_read()
    ensures { JsonIsRead }
{}

// S-expressions are read.
pub fn sexprs_are_read()
    ensures { SexprsAreRead }
{}

// Each sample record is read as the table says.
pub fn records_are_read()
    ensures { RecordsRead }
{}
