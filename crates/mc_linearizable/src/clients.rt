//! What the clients of a linearizable pool may rely on, of one key. Each world is such a pool (`worlds_are_linearizable`). The functions do nothing:
//! their contracts are the laws.
ghost use Rattle.std.specs.Prelude.{ℕ, List};
ghost use Rattle.mc_route.specs.declared.losses.Losses.{Losses};
ghost use Rattle.mc_account.specs.Orders.{Order};
ghost use Rattle.mc_history.specs.declared.entries.Entry.{Entry};
ghost use Rattle.mc_world.specs.Homes.{Homes};
ghost use Rattle.mc_world.specs.Logs.{Log};
ghost use Rattle.mc_linearizable.specs.Linearizable.{IsLinearizablePool};
ghost use Rattle.mc_linearizable.specs.Clients.{AHitHasAWriter, AHitShowsTheLastStore, AnAddExcludes, ClientsCount, ClientsLoseNoCas, ClientsReadOwnWrites, HasRun, OneClientFills, OneClientWins};

/// All commands on a key that a server executed in one of its lives, in order, are a run of the key's register. So each law of runs
/// (`mc_registers`) is one of commands that clients sent.
pub fn commands_are_in_their_run()
    ensures { (home : Homes) (losses : Losses) (counter : ℕ) (order : Order) (texts outs : ℕ → List ℕ) (histories : ℕ → List Entry) (log : Log)
        → IsLinearizablePool home losses counter order texts outs histories log → (key : List ℕ) (place life : ℕ)
        → HasRun counter order histories log key place life }
{}

/// A client stored a whole value, and the answer says so. A `get` that was taken after that answer, and hits, shows the value, or another command that
/// may have written is between the two in the key's order, and was executed by the server that gave the hit. This holds whichever servers joined or
/// restarted, if both clients have one proxy, or the key was not routed back: in the account `two_rings_show_older_values` it was. Between is by the key's
/// order: a command whose reply was taken, by another proxy, and answered before the store was taken, is between only if the key was routed back to the
/// store. In the run `another_value_is_read` (`mc_registers`) the other command is another store, and in the account `lost_commands_may_come_late` it is
/// a lost one. In the account `early_gets_show_older_values` the get was taken before that answer.
pub fn clients_read_own_writes()
    ensures { (home : Homes) (losses : Losses) (counter : ℕ) (order : Order) (texts outs : ℕ → List ℕ) (histories : ℕ → List Entry) (log : Log)
        → IsLinearizablePool home losses counter order texts outs histories log → (key : List ℕ) → ClientsReadOwnWrites home order histories log key }
{}

/// A whole value was stored, also by a lost command. A hit follows it in the key's order, and no command between the two may have written. The hit shows
/// the value, and its flags if it shows any. A hit is one of `get`, `gets`, `gat` or `gats`, or a value that `mg` shows of an item which it did not
/// make. In the run `another_value_is_read` (`mc_registers`) another store is between.
pub fn a_hit_shows_the_last_store()
    ensures { (home : Homes) (losses : Losses) (counter : ℕ) (order : Order) (texts outs : ℕ → List ℕ) (histories : ℕ → List Entry) (log : Log)
        → IsLinearizablePool home losses counter order texts outs histories log → (key : List ℕ) → AHitShowsTheLastStore order histories log key }
{}

/// Before a hit, in the same life of the same server, a command has stored, counted or deleted, or an `mg` with `N` was shown W.
/// `commands_are_in_their_run` says that no hit shows an item that a server stored before it restarted.
pub fn a_hit_has_a_writer()
    ensures { (home : Homes) (losses : Losses) (counter : ℕ) (order : Order) (texts outs : ℕ → List ℕ) (histories : ℕ → List Entry) (log : Log)
        → IsLinearizablePool home losses counter order texts outs histories log → (key : List ℕ) → AHitHasAWriter order histories log key }
{}

/// A hit of `gets` or `gats` showed a number. A `cas` with it, or an `ms` with `C`, was taken after that answer, and stored, in the same life of the
/// same server. No command between the two has written. In the run `numbers_fit_another_life` (`mc_registers`) the server began anew in between, and in
/// the account `numbers_fit_another_server` another server joined.
pub fn clients_lose_no_cas()
    ensures { (home : Homes) (losses : Losses) (counter : ℕ) (order : Order) (texts outs : ℕ → List ℕ) (histories : ℕ → List Entry) (log : Log)
        → IsLinearizablePool home losses counter order texts outs histories log → (key : List ℕ) → ClientsLoseNoCas order histories log key }
{}

/// A client was answered a number by `incr` or `decr`. The next command on the key that may have written is a count too, and its client was answered a
/// number: the one that it counts to. In the run `forgotten_counters_begin_anew` (`mc_registers`) a count makes an item of its own.
pub fn clients_count()
    ensures { (home : Homes) (losses : Losses) (counter : ℕ) (order : Order) (texts outs : ℕ → List ℕ) (histories : ℕ → List Entry) (log : Log)
        → IsLinearizablePool home losses counter order texts outs histories log → (key : List ℕ) → ClientsCount order histories log key }
{}

/// Two clients were shown W by `mg`, and no command between the two has written. Then the second asked for an item to be made, by `N`. This implies
/// nothing for clients that always ask by `N`: `one_client_wins` is about them. In two of the runs `marks_are_won_again` (`mc_registers`) the item is
/// called stale, or stored anew.
pub fn one_client_fills()
    ensures { (home : Homes) (losses : Losses) (counter : ℕ) (order : Order) (texts outs : ℕ → List ℕ) (histories : ℕ → List Entry) (log : Log)
        → IsLinearizablePool home losses counter order texts outs histories log → (key : List ℕ) → OneClientFills order histories log key }
{}

/// Two clients were shown W by `mg`, and no command between the two has written. Then the item was forgotten or dead in between, or the key's server
/// joined or began anew. This holds also if each client asks by `N`: one client fills an item while it stays. In the runs `marks_are_won_again`
/// (`mc_registers`) the item is forgotten or dead, or another command writes.
pub fn one_client_wins()
    ensures { (home : Homes) (losses : Losses) (counter : ℕ) (order : Order) (texts outs : ℕ → List ℕ) (histories : ℕ → List Entry) (log : Log)
        → IsLinearizablePool home losses counter order texts outs histories log → (key : List ℕ) → OneClientWins order histories log key }
{}

/// An `add` stored, and no command between an earlier one and it may have written. If an item was stored after the earlier one, it was forgotten, or was
/// dead. So of two clients whose `add` stored at one server, the second found the lock forgotten, dead or written. If the key's server joined in between, by
/// one proxy, the lock may still be held at the server before. In a run of `forgotten_locks_are_taken` (`mc_registers`) it is deleted.
pub fn an_add_excludes()
    ensures { (home : Homes) (losses : Losses) (counter : ℕ) (order : Order) (texts outs : ℕ → List ℕ) (histories : ℕ → List Entry) (log : Log)
        → IsLinearizablePool home losses counter order texts outs histories log → (key : List ℕ) → AnAddExcludes order histories log key }
{}
