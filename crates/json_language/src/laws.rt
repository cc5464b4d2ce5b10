// What the rules of JSON promise, in a contract each can be cited by.
// One function for each language: languages are definitions here, and no types to be generic over.
ghost use Rattle.rules.specs.Lawful.{Lawful};
ghost use Rattle.json_language.specs.Rules.{json_rules};
ghost use Rattle.json_language.specs.Laws.{RulesReadJson};

// The rules of JSON show what every set of rules must show.
pub fn json_rules_are_lawful()
    ensures { Lawful json_rules }
{}

// Bytes are words of JSON in an order that JSON has exactly where the rules say so.
pub fn json_rules_read_the_language()
    ensures { RulesReadJson }
{}
