//! What follows from an account being legal, and what the audit rests on.

ghost use Rattle.std.specs.Prelude.{◌≡◌, ◌<◌, ◌^◌};
ghost use Rattle.vs_base.specs.declared.numbers.CallId.{CallId};
ghost use Rattle.vs_audit.specs.Account.{Account};
ghost use Rattle.vs_audit.specs.Legal.{IsLegalAccount, number_of};
ghost use Rattle.vs_audit.specs.Rules.{KeepsRules};

/// In a legal account each history is one of a row map, in which no call stands twice, and the
/// answered calls of a client stand in each history in the client's order.
pub fn legal_accounts_keep_the_rules()
    ensures { (a : Account) → IsLegalAccount a → KeepsRules a }
{}

/// Two calls of the same number are one call, so that an audit may know calls by their numbers.
pub fn call_numbers_tell_calls_apart()
    ensures { (a b : CallId) → a.call < 2 ^ 32 → b.call < 2 ^ 32 → number_of a ≡ number_of b
        → a ≡ b }
{}
