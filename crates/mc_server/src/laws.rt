//! Laws of the entries of a history. The functions do nothing: their contracts are the laws.
ghost use Rattle.std.specs.Prelude.{◌≡◌, true, false};
ghost use Rattle.mc_request.specs.Faults.{fault_line};
ghost use Rattle.mc_request.specs.declared.faults.Fault.TheVariants.{OutOfMemory};
ghost use Rattle.mc_request.specs.declared.parts.Request.TheVariants.{Version};
ghost use Rattle.mc_request.specs.declared.parts.Parsed.TheVariants.{Whole};
ghost use Rattle.mc_cache.specs.CacheState.{CacheState};
ghost use Rattle.mc_server.specs.Served.{IsLegalAt, ServedRequest, answer_after};

/// The answer to an entry that was refused memory is the line that says so, and nothing else. An entry that was
/// not may follow any history.
pub fn refusals_are_told()
    ensures told { (s : CacheState) → (e : ServedRequest) → IsLegalAt s e → e.refused ≡ true
        → answer_after s e ≡ fault_line OutOfMemory }
    ensures granted { (s : CacheState) → (e : ServedRequest) → e.refused ≡ false → IsLegalAt s e }
{}

/// A worked example: `version` is not refused memory, since nothing of its answer says so.
pub fn version_is_granted()
    ensures { (s : CacheState) → IsLegalAt s (record { connection = 0; what = Whole Version; moment = 9; refused = false }) }
{}
