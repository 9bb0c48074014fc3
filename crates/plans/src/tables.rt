//! The tables that plan is lent.

/// The tables that plan is lent: it writes each trip's successor and price at the trip's position, and works in the others.
/// `V` stands for the rows of the tariff.
#[derive(Drop)]
pub struct Tables<'t, V> {
    pub successors: &'t mut [u16],
    pub prices: &'t mut [V],
    pub numbers: &'t mut [u16],
    pub values: &'t mut [V],
}
