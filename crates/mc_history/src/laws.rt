//! Laws of what servers make of the commands that are spelled to them. The functions do nothing: their contracts are the laws.
ghost use Rattle.std.specs.Prelude.{ℕ, ◌≡◌, true, List};
ghost use Rattle.mc_request.specs.Faults.{fault_line};
ghost use Rattle.mc_request.specs.declared.faults.Fault.TheVariants.{OutOfMemory};
ghost use Rattle.mc_request.specs.declared.parts.Atom.{Atom};
ghost use Rattle.mc_request.specs.declared.parts.Parsed.TheVariants.{Whole};
ghost use Rattle.mc_reply.specs.CanHave.{can_have};
ghost use Rattle.mc_codec.specs.Spellings.{is_good_atom, request_of};
ghost use Rattle.mc_link.specs.LinkState.{LinkState};
ghost use Rattle.mc_cache.specs.CacheState.{CacheState};
ghost use Rattle.mc_cache.specs.Step.{step_of};
ghost use Rattle.mc_server.specs.Served.{IsLegalAt, ServedRequest, answer_after};
ghost use Rattle.mc_server.specs.ServerState.{ConnectionState};
ghost use Rattle.mc_account.specs.Lanes.{Lane};
ghost use Rattle.mc_account.specs.Orders.{Order, Tagged};
ghost use Rattle.mc_history.specs.Generations.{BothEndsAgree, IsCarried};
ghost use Rattle.mc_history.specs.Made.{Made};

/// If, both ways, the bytes that arrived are those that were sent, a server takes the commands that were sent, in order. The replies that
/// the proxy takes are those that the server gave to them, and the bytes that come back are never a violation.
pub fn generations_carry()
    ensures { (place : ℕ) (order : Order) (lane : Lane) (link : LinkState) (opening : CacheState) (made : List Made) (number : ℕ)
        (connection : ConnectionState) (others : List Tagged)
        → BothEndsAgree place order lane link opening made number connection others → IsCarried place order lane link made number connection others }
{}

/// Memory was refused to a command that was spelled to a server exactly if its answer is the line for lack of memory. This holds if its
/// reply is one that it can have.
pub fn refusals_are_told_by_their_line()
    ensures refused { (s : CacheState) (e : ServedRequest) (atom : Atom (List ℕ)) → e.what ≡ Whole (request_of atom) → is_good_atom atom ≡ true
        → can_have atom (step_of s atom e.moment e.refused).1 ≡ true → IsLegalAt s e → answer_after s e ≡ fault_line OutOfMemory → e.refused ≡ true }
    ensures line { (s : CacheState) (e : ServedRequest) (atom : Atom (List ℕ)) → e.what ≡ Whole (request_of atom) → is_good_atom atom ≡ true
        → can_have atom (step_of s atom e.moment e.refused).1 ≡ true → IsLegalAt s e → e.refused ≡ true → answer_after s e ≡ fault_line OutOfMemory }
{}
