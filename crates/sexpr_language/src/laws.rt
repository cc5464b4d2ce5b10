// The laws of the S-expressions' rules, in a contract each can be cited by.
// One function for each language: languages are definitions here, and no types to be generic over.
ghost use Rattle.rules.specs.Lawful.{Lawful};
ghost use Rattle.sexpr_language.specs.Rules.{sexpr_rules};
ghost use Rattle.sexpr_language.specs.Laws.{RulesReadSexprs};

// The rules are lawful.
pub fn sexpr_rules_are_lawful()
    ensures { Lawful sexpr_rules }
{}

// Bytes are a text of words by the rules exactly when they are one in the language.
pub fn sexpr_rules_read_the_language()
    ensures { RulesReadSexprs }
{}
