// The two tables of a run, as a call reads them, and what is tested of them.
ghost use Rattle.std.specs.Prelude.{◌≡◌, ◌<◌, ◌≤◌, length, Ok, Err, IfErr, IfOk, OnErr, OnOk};
ghost use Rattle.run.specs.Ready.{Fitting, Member, Unfitting};
ghost use Rattle.run.specs.Records.{named, record_sound, station_at};
ghost use Rattle.run.specs.Numbers.{numbers};
ghost use Rattle.run.specs.declared.refusal.Refusal.TheVariants as refusal;

use super::refusal::Refusal;
use super::running::Running;
use station::Station;
use table::place_size;
use value::Value;

// The records of the stations, and the bytes of the places. The public calls are handed the two one by one,
// as a call writes both, one or none of them.
#[derive(Clone, Copy)]
pub(super) struct Tables<'a, V> {
    pub(super) stations: &'a [Station<V>],
    pub(super) bytes: &'a [u8],
}

impl<V: Value> Tables<'_, V> {
    // That the tables are of `n` stations and `places` places.
    pub(super) fn check(self, n: u8, places: u16) -> Result<(), Refusal>
        ensures fit { OnOk result (Fitting V.Value n places self.entry) }
        ensures refused { IfErr result (Unfitting V.Value n places self.entry) }
    {
        let places_here = self.bytes.len() / place_size::<V>();
        if self.stations.len() == usize::from(n) && places_here == usize::from(places) {
            Ok(())
        } else {
            Err(Refusal::Tables)
        }
    }

    // The record of station `i`.
    pub(super) fn record(self, i: usize) -> Result<Station<V>, Refusal>
        ensures below { OnOk result (i < length self.entry.stations.now) }
        ensures found { IfOk result (λ s. s ≡ station_at self.entry.stations.now i) }
        ensures past { OnErr result (length self.entry.stations.now ≤ i) }
        ensures unknown { IfErr result (λ e. e ≡ refusal.Unknown) }
    {
        self.stations.get(i).copied().ok_or(Refusal::Unknown)
    }
}

impl Running {
    // Whether the record of station `i`, if there is one, is sound.
    #[tactic(auto, unfolding(crate::specs::Records::record_sound))]
    pub(super) fn has_sound<V: Value>(&self, stations: &[Station<V>], i: usize) -> bool
        ensures { result ≡ record_sound self.now.n stations.now i }
    {
        i >= usize::from(self.n) || stations.get(i).is_some_and(|s| s.fits(i as u8, self.n))
    }

    // The record of station `i`, which a call names.
    #[tactic(auto, using(crate::proofs::Members::named_found), unfolding(crate::specs::Records::named, crate::specs::Records::record_sound))]
    pub(super) fn named<V: Value>(&self, tables: Tables<V>, i: usize) -> Result<Station<V>, Refusal>
        ensures named { OnOk result (named V.Value (numbers self.now) tables.entry.stations.now (length tables.entry.bytes.now) i ≡ Ok tt) }
        ensures refused { IfErr result (λ e. named V.Value (numbers self.now) tables.entry.stations.now (length tables.entry.bytes.now) i ≡ Err e) }
        ensures record_at { IfOk result (λ s. s ≡ station_at tables.entry.stations.now i) }
        ensures member { IfOk result (Member self.now.n i) }
        ensures fit { OnOk result (Fitting V.Value self.now.n self.now.places tables.entry) }
    {
        tables.check(self.n, self.places)?;
        let station = tables.record(i)?;
        if !station.fits(i as u8, self.n) {
            return Err(Refusal::Tables);
        }
        if station.crashed {
            return Err(Refusal::Crashed);
        }
        Ok(station)
    }
}
