//! Whose call it is: who shows no key of a customer makes no call of it; and calls by hundreds ask
//! everyone once.

ghost use Rattle.std.specs.Prelude.{◌≡◌, ◌≤◌, ◌++◌, ◌∷◌, [], ℕ, List, Ok, Option, Some};
ghost use Rattle.std.specs.Prelude.{length, string_bytes};
ghost use Rattle.hq_kept.specs.declared.account.Customer.{Customer};
ghost use Rattle.hq_requests.specs.Directories.{name_of};
ghost use Rattle.hq_requests.specs.Named.{key_shown};
ghost use Rattle.hq_requests.specs.Routes.{methods_at, role_of};
ghost use Rattle.hq_requests.specs.Spans.{From, Whom, asked_in, from_start, unasked_in};
ghost use Rattle.hq_requests.specs.declared.table.Methods.{Methods};
ghost use Rattle.hq_requests.specs.declared.table.Role.TheVariants.{Relay};
ghost use Rattle.hq_rules.specs.declared.call.Call.{Call};
ghost use Rattle.hq_requests.specs.Calls.{CallOf, CallOfAll, call_of};
ghost use Rattle.hq_requests.specs.declared.directory.Directory.{Directory};
ghost use Rattle.hq_requests.specs.declared.exchanges.Exchange.{Exchange};
ghost use Rattle.hq_laws.specs.Whose.{MayCall};

/// A call of a customer is made only by an exchange that shows a key of that customer, its own or a
/// named one of its; or the relay's key, on a path that ends in the customer's name. On a path of
/// the relay's, and for a call of all customers, it is the relay's key.
pub fn only_its_keys_make_its_calls()
    ensures one { (d : Directory) (x : Exchange) (name : List ℕ) (call : Call)
        → call_of d x ≡ Ok (CallOf name call) → MayCall d x name }
    ensures relays { (d : Directory) (x : Exchange) (name : List ℕ) (call : Call)
        (methods : Methods) → call_of d x ≡ Ok (CallOf name call)
        → methods_at (string_bytes x.path) ≡ Some methods → role_of methods ≡ Relay
        → key_shown x ≡ Some d.relay }
    ensures all { (d : Directory) (x : Exchange) (whom : Whom) (call : Call)
        → call_of d x ≡ Ok (CallOfAll whom call) → key_shown x ≡ Some d.relay }
{}

/// The customers that a call by hundreds asks, and those from the one on that it names for the next
/// call, are all customers from the start of the first call on, in order. A call that names none
/// asks all of these. Each asks somebody, where there is anybody, and a hundred at most.
pub fn hundreds_ask_everyone_once()
    ensures some { (d : Directory) (start : Option (List ℕ)) (c : Customer) (more : List Customer)
        → from_start start d.customers ≡ c ∷ more
        → (rest : List Customer) × (asked_in d (From start) ≡ c ∷ rest) }
    ensures few { (d : Directory) (start : Option (List ℕ))
        → length (asked_in d (From start)) ≤ 100 }
    ensures last { (d : Directory) (start : Option (List ℕ)) → unasked_in d (From start) ≡ []
        → asked_in d (From start) ≡ from_start start d.customers }
    ensures next { (d : Directory) (start : Option (List ℕ)) (c : Customer) (more : List Customer)
        → unasked_in d (From start) ≡ c ∷ more
        → asked_in d (From start) ++ from_start (Some (name_of c)) d.customers
        ≡ from_start start d.customers }
{}
