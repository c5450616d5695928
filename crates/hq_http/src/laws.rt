//! A law over the definition of what bytes ask for, with no program in it: an empty function whose
//! contract is the law.

ghost use Rattle.std.specs.Prelude.{◌≡◌, ◌++◌, ℕ, List};
ghost use Rattle.hq_values.specs.declared.failure.Refusal.TheVariants.{BodyTooLong};
ghost use Rattle.hq_http.specs.Requests.{Wanted, Request, refused, request, RequestOf, Determines};

/// Bytes ask for one thing; and what a whole request, or one with too long a body, asks for stays
/// as it is however the bytes go on.
pub fn one_request()
    ensures one { (bytes : List ℕ) (a b : Wanted) → RequestOf bytes a → RequestOf bytes b
        → a ≡ b }
    ensures whole { (bytes : List ℕ) (q : Request) → RequestOf bytes (request q)
        → Determines bytes (request q) }
    ensures too_long { (bytes : List ℕ) → RequestOf bytes (refused BodyTooLong)
        → Determines bytes (refused BodyTooLong) }
{}
