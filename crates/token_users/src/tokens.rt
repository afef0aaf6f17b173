ghost use Rattle.std.specs.Prelude.{◌≡◌, IfOk, option_map};
ghost use Rattle.token_users.specs.Places as spec;

use crate::record::Record;
use front_base::{NoMemory, User};
use std::alloc::Global;
use std::collections::BTreeMap;
use std::marker::Model;

/// The tokens of a file and their users. Contracts see the list of the file's records; of those with one token the last
/// counts.
#[derive(Drop)]
pub struct Tokens {
    records: Vec<Record>,
    // the place of each token's last record
    places: BTreeMap<String, usize>,
}

impl Model for Tokens {
    ghost use Rattle.std.specs.Prelude.{List};
    ghost use Rattle.token_users.specs.Places.{HasPlaces};
    ghost use Rattle.token_users.specs.declared.record.Record.{Record};

    ghost Value = { List Record };

    ghost view = { λ t. t.records.items };

    ghost invariant = { λ t. HasPlaces t.places t.records.items };
}

// The place of each token's last record.
fn places_of(alloc: Global, records: &[Record]) -> Result<BTreeMap<String, usize>, NoMemory>
    ensures { IfOk result (λ places. spec.HasPlaces places records.now) }
{
    let mut places = BTreeMap::new(alloc);
    for i in 0..records.len() {
        let token = String::from_str(alloc, records[i].token.as_str())?;
        places.insert(token, i)?;
    }
    Ok(places)
}

impl Tokens {
    /// The tokens of records, in the order of a file.
    pub fn new(alloc: Global, records: Vec<Record>) -> Result<Tokens, NoMemory>
        ensures { IfOk result (λ tokens. tokens ≡ records.items) }
    {
        match places_of(alloc, records.as_slice()) {
            Ok(places) => Ok(Tokens { records, places }),
            Err(NoMemory) => Err(NoMemory),
        }
    }

    /// The records of the file, in its order.
    pub fn records(&self) -> &[Record]
        ensures { result.now ≡ self.now }
    {
        self.records.as_slice()
    }

    /// The user of a token, with the groups that the file gives.
    pub fn user(&self, token: &[u8]) -> Option<&User>
        ensures { option_map (λ u. u.now) result ≡ spec.last_user token.now self.now }
    {
        let places = &self.places;
        let token = match str::from_utf8(token) {
            Ok(token) => token,
            Err(_) => return None,
        };
        match places.get(token) {
            Some(place) => Some(&self.records[*place].user),
            None => None,
        }
    }
}
