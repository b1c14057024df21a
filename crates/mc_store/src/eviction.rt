//! Eviction: the most recently used items are kept.
ghost use Rattle.std.specs.Prelude.{◌≡◌};
ghost use Rattle.mc_store.specs.Items.{kept};

use crate::stores::Store;
use mc_item::cost;

/// Evicts items, the last one first, until the others cost at most `budget` bytes and are at most `limit`.
///
/// It takes no memory. It reads the sum of the costs once; each evicted item is then one step more.
#[tactic(auto, using(crate::proofs::KeptLemmas::evictions))]
pub fn keep<S: Store + Drop>(store: &mut S, budget: u64, limit: usize)
    ensures items { S.items store.new ≡ kept budget limit (S.items store.old) }
    ensures most { S.most store.new ≡ S.most store.old }
{
    let mut used = store.used();
    while used > budget || store.len() > limit {
        let Some(last) = store.drop_last() else {
            break;
        };
        used -= cost(&last.0, &last.1);
    }
}
