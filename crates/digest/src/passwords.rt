//! A table of users and their passwords' hashes.
ghost use Rattle.std.specs.Prelude.{◌≡◌, ◌↔◌, ℕ, List, None, Some, bytes_eq, if◌then◌else◌, option_map, IsTrue, IfOk, IfErr, OnOk, OnErr};
ghost use Rattle.indexmap.specs.IndexMap.{get_by_text};
ghost use Rattle.sip_text.specs.Bytes.{Finds};
ghost use Rattle.digest.specs.declared.passwords.PasswordsError.TheVariants as error;
ghost use Rattle.digest.specs.declared.algorithm.Algorithm.{Algorithm as AlgorithmSeen};
ghost use Rattle.digest.specs.Passwords as spec;
ghost use Rattle.digest.specs.Passwords.{before_colon, entry_seen, hash_kind, is_blank, known, offers, IsOfRealm, Adds, IsSame, Takes, IsWrong};

use crate::algorithm::Algorithm;
use indexmap::IndexMap;
use sip_text::{NoMemory, Text, cut_at, text_of};
use std::alloc::Global;
use thiserror::Error;

/// Why a line of a password file is refused: the first of these that is so. Each names the line's number.
#[derive(Clone, Copy, Debug, PartialEq, Eq, Error)]
pub enum PasswordsError {
    /// A growth was refused.
    #[error("out of memory")]
    NoMemory,
    /// It isn't `user:realm:hash`.
    #[error("line {0}: not user:realm:hash")]
    Form(u64),
    /// The hash is neither 32 hex digits (MD5) nor 64 (SHA-256), in small letters.
    #[error("line {0}: the hash isn't 32 or 64 hex digits in small letters")]
    Hash(u64),
    /// The lines before have another realm.
    #[error("line {0}: not the realm of the lines before")]
    Realm(u64),
    /// A line before has a hash of this kind for this user.
    #[error("line {0}: the user has such a hash already")]
    Twice(u64),
}

impl From<NoMemory> for PasswordsError {
    ghost from_gives = { λ _ e. e ≡ error.NoMemory };

    fn from(_refused: NoMemory) -> PasswordsError {
        PasswordsError::NoMemory
    }
}

/// What a line says.
#[derive(Clone, Copy)]
struct Entry<'a> {
    user: &'a str,
    realm: &'a str,
    hash: &'a str,
}

/// Users of one realm, each with H(A1), the hash of `user:realm:password`, by MD5 or by SHA-256 or by both (RFC 7616 section 3.4.2). Who
/// reads it can answer challenges as each of the users, so its file is as secret as the passwords.
#[derive(Drop)]
pub struct Passwords {
    /// The realm of the lines, once there was one.
    pub realm: Option<Text>,
    pub md5: IndexMap<String, Text>,
    pub sha256: IndexMap<String, Text>,
}

/// The text before the first colon, and what stands behind it.
#[tactic(auto, unfolding(crate::specs::Passwords::before_colon))]
fn before_colon(text: &[u8]) -> Option<(&str, &[u8])>
    ensures { Finds (λ x. (x.0.now, x.1.now)) result (before_colon text.now) }
{
    let (front, rest) = cut_at(b':', text)?;
    Some((text_of(front)?, rest))
}

/// The entry that the line is.
#[tactic(auto, unfolding(crate::specs::Passwords::read_entry))]
fn read_entry(line: &str) -> Option<Entry<'_>>
    ensures { Finds entry_seen result (spec.read_entry line.now) }
{
    let (user, rest) = before_colon(line.as_bytes())?;
    let (realm, rest) = before_colon(rest)?;
    let hash = text_of(rest)?;
    Some(Entry { user, realm, hash })
}

/// Whether each byte is a hex digit, in small letters.
fn is_hex(text: &str) -> bool
    ensures { result ≡ spec.is_hex text.now }
{
    text.bytes()
        .all(|byte| matches!(byte, b'0'..=b'9' | b'a'..=b'f'))
}

/// The kind of this hash in hex digits.
fn hash_kind(hash: &str) -> Option<Algorithm>
    ensures { result ≡ hash_kind hash.now }
{
    if !is_hex(hash) {
        return None;
    }
    match hash.len() {
        32 => Some(Algorithm::Md5),
        64 => Some(Algorithm::Sha256),
        _ => None,
    }
}

/// Whether the line says nothing: an empty one, or a comment.
fn is_blank(line: &str) -> bool
    ensures { result ≡ is_blank line.now }
{
    matches!(line.as_bytes(), [] | [b'#', ..])
}

/// Puts the hash of a user into the table.
fn put(
    alloc: Global,
    table: &mut IndexMap<String, Text>,
    user: &str,
    hash: &str,
) -> Result<(), NoMemory>
    ensures ok { OnOk result ((q : List ℕ) → get_by_text table.new q
        ≡ (if bytes_eq user.now q then Some hash.now else get_by_text table.old q)) }
    ensures err { OnErr result (table.new.entries ≡ table.old.entries) }
{
    let user = String::from_str(alloc, user)?;
    let hash = Text::of(alloc, hash)?;
    table.insert(user, hash)?;
    Ok(())
}

impl Passwords {
    /// A table with no user.
    pub fn new(alloc: Global) -> Passwords
        ensures realm { result.realm ≡ None }
        ensures empty { (algorithm : AlgorithmSeen) (user : List ℕ) → known result algorithm user ≡ None }
    {
        Passwords {
            realm: None,
            md5: IndexMap::new(alloc),
            sha256: IndexMap::new(alloc),
        }
    }

    /// H(A1) of this user by this hash, if a line said it.
    pub fn hash(&self, algorithm: Algorithm, user: &str) -> Option<&Text>
        ensures { option_map (λ t. t.now) result ≡ known self.now algorithm user.now }
    {
        match algorithm {
            Algorithm::Md5 => self.md5.get(user),
            Algorithm::Sha256 => self.sha256.get(user),
        }
    }

    /// Whether some line had such a hash.
    pub fn offers(&self, algorithm: Algorithm) -> bool
        ensures { result ≡ offers self.now algorithm }
    {
        match algorithm {
            Algorithm::Md5 => !self.md5.is_empty(),
            Algorithm::Sha256 => !self.sha256.is_empty(),
        }
    }

    /// Whether the lines so far let a line of this realm follow.
    fn suits(&self, realm: &str) -> bool
        ensures { IsTrue result ↔ IsOfRealm self.now realm.now }
    {
        match &self.realm {
            None => true,
            Some(own) => own.is(realm),
        }
    }

    /// Adds what a line said.
    fn add(&mut self, alloc: Global, algorithm: Algorithm, entry: Entry<'_>) -> Result<(), NoMemory>
        ensures ok { OnOk result (Adds self.old algorithm (entry_seen entry.entry) self.new) }
        ensures err { OnErr result (IsSame self.old self.new) }
    {
        let realm = Text::of(alloc, entry.realm)?;
        match algorithm {
            Algorithm::Md5 => put(alloc, &mut self.md5, entry.user, entry.hash)?,
            Algorithm::Sha256 => put(alloc, &mut self.sha256, entry.user, entry.hash)?,
        }
        self.realm = Some(realm);
        Ok(())
    }

    /// Takes in a line of a password file, without its line feed: `user:realm:hash`, as Apache's htdigest writes it. An empty line and a comment,
    /// which begins with `#`, say nothing. The lines are of one realm, and a user has one hash of each kind. After an error nothing is
    /// changed, and the error names this number.
    pub fn add_line(&mut self, alloc: Global, number: u64, line: &str) -> Result<(), PasswordsError>
        ensures ok { OnOk result (Takes self.old line.now self.new) }
        ensures err { OnErr result (IsSame self.old self.new) }
        ensures wrong { IfErr result (IsWrong self.old line.now number) }
    {
        if is_blank(line) {
            return Ok(());
        }
        let Some(entry) = read_entry(line) else {
            return Err(PasswordsError::Form(number));
        };
        let Some(algorithm) = hash_kind(entry.hash) else {
            return Err(PasswordsError::Hash(number));
        };
        if !self.suits(entry.realm) {
            return Err(PasswordsError::Realm(number));
        }
        if self.hash(algorithm, entry.user).is_some() {
            return Err(PasswordsError::Twice(number));
        }
        self.add(alloc, algorithm, entry)?;
        Ok(())
    }
}
