//! The clients of a column, found by their numbers.
ghost use Rattle.std.specs.Prelude.{◌≡◌, ◌<◌, ◌∷◌, ◌++◌, [], None, Some, length, map, slice_index_or, slice_set, option_copied, IsSome, IsSomeAnd, OnOk, OnErr, IfOk};
ghost use Rattle.mk_lists.specs.Among.{AllDistinct};
ghost use Rattle.mk_column.specs.declared.clients.Client.{Client as OneClient};
ghost use Rattle.mk_column.specs.ClientsByCode.{fresh_client, not_reading, kept_client, change_kept};

use indexmap::IndexSet;
use mk_txn::NoMemory;
use std::alloc::Global;
use std::marker::Model;

/// A client: the time of its last stamp, its next place, the highest epoch that it has heard of, and whether an
/// attempt of it is reading.
#[derive(Clone, Copy)]
pub(crate) struct Client {
    pub(crate) number: u32,
    pub(crate) last_time: u64,
    pub(crate) next_seq: u32,
    pub(crate) heard: u32,
    pub(crate) reading: bool,
}

/// The clients in the order in which they were named.
#[derive(Drop)]
pub(crate) struct Clients {
    items: Vec<Client>,
    // the number of each client, at its place
    numbers: IndexSet<u32>,
}

impl Model for Clients {
    ghost use Rattle.std.specs.Prelude.{List};
    ghost use Rattle.mk_column.specs.declared.clients.Client.{Client};
    ghost use Rattle.mk_column.specs.ClientsByCode.{number_of};
    ghost use Rattle.mk_lists.specs.Keyed.{IsIndex};

    ghost Value = { List Client };

    ghost view = { λ clients. clients.items.items };

    ghost invariant = { λ clients. IsIndex number_of clients.items.items clients.numbers.keys };
}

impl Clients {
    pub(crate) fn new(alloc: Global) -> Clients
        ensures { result ≡ [] }
    {
        Clients {
            items: Vec::new(alloc),
            numbers: IndexSet::new(alloc),
        }
    }

    /// Clients of these numbers, that have begun nothing.
    pub(crate) fn named(alloc: Global, numbers: &[u32]) -> Result<Clients, NoMemory>
        requires { AllDistinct numbers.now }
        ensures { IfOk result (λ clients. clients ≡ map fresh_client numbers.now) }
    {
        let mut clients = Clients::new(alloc);
        for number in numbers {
            clients.push(*number)?;
        }
        Ok(clients)
    }

    /// No client reads any more.
    pub(crate) fn end_reading(&mut self)
        ensures { self.new ≡ map not_reading self.old }
    {
        end_reading(self.items.as_mut_slice());
    }

    /// The client of this number.
    pub(crate) fn find(&self, number: u32) -> Option<&Client>
        ensures { option_copied result ≡ kept_client number self.now }
    {
        let place = self.numbers.get_index_of(&number)?;
        self.items.get(place)
    }

    /// All clients, in the order in which they were named.
    pub(crate) fn all(&self) -> &[Client]
        ensures { result.now ≡ self.now }
    {
        self.items.as_slice()
    }

    /// Appends a client that has begun nothing, of whose number there is none.
    pub(crate) fn push(&mut self, number: u32) -> Result<(), NoMemory>
        requires { kept_client number self.old ≡ None }
        ensures ok { OnOk result (self.new ≡ self.old ++ fresh_client number ∷ []) }
        ensures err { OnErr result (self.new ≡ self.old) }
    {
        self.items.reserve(1)?;
        self.numbers.insert(number)?;
        let client = Client {
            number,
            last_time: 0,
            next_seq: 1,
            heard: 0,
            reading: false,
        };
        self.items.push_reserved(client);
        Ok(())
    }

    // Where the client of this number stands. To change it there is to change it in the list.
    fn place(&self, number: u32) -> usize
        requires { IsSome (kept_client number self.now) }
        ensures within { result < length self.now }
        ensures found { (client : OneClient) → kept_client number self.now ≡ Some (slice_index_or self.now result client) }
        ensures changed { (f : OneClient → OneClient) (client : OneClient) → change_kept number f self.now ≡ slice_set self.now result (f (slice_index_or self.now result client)) }
    {
        self.numbers.get_index_of(&number).unwrap()
    }

    /// Puts this in the place of the client of its number.
    pub(crate) fn put(&mut self, client: Client)
        requires { IsSome (kept_client client.number self.old) }
        ensures { (f : OneClient → OneClient) → IsSomeAnd (kept_client client.number self.old) (λ before. f before ≡ client) → self.new ≡ change_kept client.number f self.old }
    {
        let place = self.place(client.number);
        self.items[place] = client;
    }
}

fn end_reading(clients: &mut [Client])
    ensures { clients.new ≡ map not_reading clients.old }
{
    for client in clients.iter_mut() {
        client.reading = false;
    }
}
