// Whose entry a refused input is about, so that a file's line can be named.

#![tactic(auto, using(terms::proofs::Laws::tests), unfolding(crate::specs::Places::cashflow_day_wrong, crate::specs::Places::call_day_wrong, crate::specs::Places::whose_day, crate::specs::Places::amount_wrong, crate::specs::Places::strike_wrong, crate::specs::Places::up_to_wrong, crate::specs::Places::sigma_wrong, crate::specs::Places::whose_field, crate::specs::Places::whose_number))]

pub mod days;
pub mod numbers;
pub mod refused;

// A field of its own, or a list; the place is then an index into it.
#[derive(Drop)]
pub enum Whose {
    Nobody,
    Steps,
    Settlement,
    Units,
    Alpha,
    Spread,
    Cashflow,
    Call,
    Sigma,
    Pillar,
}
