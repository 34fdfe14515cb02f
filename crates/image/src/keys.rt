// Whether the transactions of an image differ in their keys: the records are too long to hand on for each comparison.
ghost use Rattle.std.specs.Prelude.{◌≡◌, map};
ghost use Rattle.recovery.specs.Lists.{any};
ghost use Rattle.transaction.specs.Rules.{alike};
ghost use Rattle.image.specs.Rules.{distinct};
ghost use Rattle.image.specs.Keys.{outline_by};

use crate::read::TxHead;
use transaction::Key;

// Whether one of them has this id, or this commit number where that is one.
fn any_alike(txs: &[TxHead], key: Key) -> bool
    ensures { result ≡ any (alike key.id.0 key.csn.0) (map outline_by txs.now) }
{
    txs.iter().any(|t| key.alike(t.key))
}

// No two of them have an id or a commit number in common.
pub(crate) fn distinct(txs: &[TxHead]) -> bool
    ensures { result ≡ distinct (map outline_by txs.now) }
{
    for (i, t) in txs.iter().enumerate() {
        if any_alike(&txs[i + 1..], t.key) {
            return false;
        }
    }
    true
}
