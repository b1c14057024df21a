//! Laws of the outputs that answer a script. The functions do nothing: their contracts are the laws.
ghost use Rattle.std.specs.Prelude.{◌≡◌, ℕ, List, All, false};
ghost use Rattle.mc_script.specs.Answers.{Answers, AnswersUnrefused, TellNoRefusal, refusals_of};
ghost use Rattle.mc_script.specs.Events.{IsEventOf};
ghost use Rattle.mc_script.specs.Scripts.{ScriptSeen};

/// For given refusals of memory, at most one list of outputs answers a script.
pub fn one_output()
    ensures { (script : ScriptSeen) (a b : List (List ℕ)) (x : Answers script a) (y : Answers script b)
        → refusals_of x.history ≡ refusals_of y.history → a ≡ b }
{}

/// For every script some outputs answer it with memory refused to no store.
pub fn some_output()
    ensures { (script : ScriptSeen) → (outputs : List (List ℕ)) × AnswersUnrefused script outputs }
{}

/// Outputs that answer a script contain the out-of-memory line if memory was refused to a store. So if no output has
/// that line as a part, memory was refused to no store, and the outputs are those of [`some_output`]. The events are of
/// connections that the script has, as those of every script that is read.
pub fn only_output()
    ensures granted { (script : ScriptSeen) → All (IsEventOf script.connections) script.events
        → (outputs : List (List ℕ)) → (x : Answers script outputs) → TellNoRefusal outputs
        → All (λ refused. refused ≡ false) (refusals_of x.history) }
    ensures only { (script : ScriptSeen) → All (IsEventOf script.connections) script.events
        → (a b : List (List ℕ)) → AnswersUnrefused script a → Answers script b → TellNoRefusal b → b ≡ a }
{}
