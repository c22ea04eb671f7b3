ghost use Rattle.std.specs.Prelude.{◌≡◌, IfOk};
ghost use Rattle.heco_execution.specs.Secrets.{Stored};

use heco_nums::Memory;

/// What an execution takes its secrets to be, and the operations on them. A secret may stand in a store, as a node
/// among nodes. Each call gives what `ops` says, or Memory.
pub trait Secrets {
    type Value: Copy;

    type Store;

    ghost ops: { Self → Stored Self.Store Self.Value };

    /// A whole number as a secret.
    fn of_number(&self, n: i64, store: &mut Self::Store) -> Result<Self::Value, Memory>
        ensures { IfOk result (λ v. (ops self.now).of_number n store.old ≡ (v, store.new)) };

    /// The sum.
    fn add(
        &self,
        x: Self::Value,
        y: Self::Value,
        store: &mut Self::Store,
    ) -> Result<Self::Value, Memory>
        ensures { IfOk result (λ v. (ops self.now).add x y store.old ≡ (v, store.new)) };

    /// The product.
    fn multiply(
        &self,
        x: Self::Value,
        y: Self::Value,
        store: &mut Self::Store,
    ) -> Result<Self::Value, Memory>
        ensures { IfOk result (λ v. (ops self.now).multiply x y store.old ≡ (v, store.new)) };

    /// The negative.
    fn negate(&self, x: Self::Value, store: &mut Self::Store) -> Result<Self::Value, Memory>
        ensures { IfOk result (λ v. (ops self.now).negate x store.old ≡ (v, store.new)) };
}
