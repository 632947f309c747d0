//! The names of the users who may show passwords, by their numbers: of who made a dialog the number alone is kept.
ghost use Rattle.std.specs.Prelude.{◌≡◌, ◌↔◌, ℕ, [], map, fold, nat_eq, string_bytes, IsTrue, IfOk, OnOk};
ghost use Rattle.indexmap.specs.IndexMap.{get, keys};
ghost use Rattle.service.specs.Users.{asked_users, is_other, known_by, name_or_none, seen_user};

use admission::{Admission, name_number};
use indexmap::IndexMap;
use sip_text::{NoMemory, Text};
use std::alloc::Global;

/// The names of the users of whom a password is known, by their numbers ([`name_number`]).
#[derive(Drop)]
pub(crate) struct Users {
    alloc: Global,
    /// None: two users have this number.
    names: IndexMap<u32, Option<Text>>,
}

impl Users {
    /// Those of whom this admission knows a password. None where it asks for none.
    pub(crate) fn new(alloc: Global, admission: &Admission) -> Result<Users, NoMemory>
        ensures { IfOk result (λ users. (n : ℕ) → get nat_eq users.names n ≡ known_by (asked_users admission.now.authentication) n) }
    {
        let mut users = Users {
            alloc,
            names: IndexMap::new(alloc),
        };
        if let Some(authentication) = &admission.authentication {
            users.add_all(&authentication.guard.passwords.md5)?;
            users.add_all(&authentication.guard.passwords.sha256)?;
        }
        Ok(users)
    }

    /// Adds the users of whom these hashes are known.
    fn add_all(&mut self, hashes: &IndexMap<String, Text>) -> Result<(), NoMemory>
        ensures { OnOk result ((n : ℕ) → get nat_eq self.new.names n
            ≡ fold (seen_user n) (get nat_eq self.old.names n) (map string_bytes (keys hashes.now))) }
    {
        for user in hashes.keys() {
            self.add(user.as_str())?;
        }
        Ok(())
    }

    /// Whether another user has this number.
    fn is_taken(&self, number: u32, user: &str) -> bool
        ensures { result ≡ is_other user.now (get nat_eq self.now.names number) }
    {
        match self.names.get(&number) {
            Some(Some(name)) => !name.is(user),
            Some(None) => true,
            None => false,
        }
    }

    /// Adds a user. A number that another one has too names nobody.
    fn add(&mut self, user: &str) -> Result<(), NoMemory>
        ensures { OnOk result ((n : ℕ) → get nat_eq self.new.names n ≡ seen_user n (get nat_eq self.old.names n) user.now) }
    {
        let number = name_number(user);
        let name = if self.is_taken(number, user) {
            None
        } else {
            Some(Text::of(self.alloc, user)?)
        };
        match self.names.insert(number, name) {
            Ok(_) => Ok(()),
            Err(_) => Err(NoMemory),
        }
    }

    /// Whether there is none.
    pub(crate) fn is_empty(&self) -> bool
        ensures { IsTrue result ↔ (self.now.names.entries ≡ []) }
    {
        self.names.is_empty()
    }

    /// The name of the one user who has this number: empty where there is none.
    pub(crate) fn name(&self, number: u32) -> &str
        ensures { result.now ≡ name_or_none (get nat_eq self.now.names number) }
    {
        match self.names.get(&number) {
            Some(Some(name)) => name.as_str(),
            _ => "",
        }
    }
}
