//! What the trips are priced at in the search.
ghost use Rattle.std.specs.Prelude.{◌≡◌, length};

/// The prices of the trips, and the hull price.
#[derive(Drop)]
pub(crate) struct Prices<'t, V> {
    /// The price of coming to each trip.
    pub(crate) coming: &'t mut [V],
    /// The price of leaving each trip.
    pub(crate) leaving: &'t mut [V],
    /// The hull price.
    pub(crate) hull: V,
    ghost long: { length leaving.now ≡ length coming.now },
}
