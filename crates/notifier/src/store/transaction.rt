//! What names a transaction, as one text by which its kept answer is found.
#![tactic(auto, unfolding(notifier_model::specs::Requests::key_of_request))]

ghost use Rattle.std.specs.Prelude.{◌≡◌, ◌+◌, ◌≤◌, ◌++◌, length, string_bytes, option_map, IfOk, OnOk};
ghost use Rattle.notifier_model.specs.Requests.{key_of_request};
ghost use Rattle.notifier_model.specs.Home.{key_hash};
ghost use Rattle.snapshots.specs.Books.{IsKey, key_text};
ghost use Rattle.notifier.specs.Keys.{parted, AreTexts};

use notifier_model::homes::key_hash;
use notifier_model::row::Key;
use sip_read::Request;
use sip_text::NoMemory;
use snapshots::form::put_bytes;
use std::alloc::Global;

/// The texts of a key in one: the branch, the sent-by and the method. Transactions are ordered by a number of their
/// branch first, since branches begin alike: so a look-up compares texts where it has found what it seeks.
#[derive(PartialEq, Eq, PartialOrd, Ord, Drop)]
pub struct Transaction {
    /// The hash of the branch. Others may have the same.
    number: u32,
    texts: String,
    /// How many bytes the branch has.
    branch: usize,
    /// How many bytes the sent-by has.
    sent_by: usize,
    ghost within: { branch + sent_by ≤ length (string_bytes texts) },
    ghost are_texts: { AreTexts (parted branch sent_by (string_bytes texts)) },
    ghost numbered: { number ≡ key_hash (parted branch sent_by (string_bytes texts)).branch },
}

impl Transaction {
    /// What names the transaction of a request, if anything does: a branch with the magic cookie (RFC 3261 section 17.2.3).
    pub fn of(alloc: Global, request: &Request) -> Result<Option<Transaction>, NoMemory>
        ensures { IfOk result (λ named. option_map (λ t. parted t.branch t.sent_by (string_bytes t.texts)) named
            ≡ key_of_request request.now) }
    {
        let top = &request.head.top;
        let Some(branch) = &top.branch else {
            return Ok(None);
        };
        if !branch.as_str().as_bytes().starts_with(b"z9hG4bK") {
            return Ok(None);
        }
        let transaction = Transaction::joined(
            alloc,
            branch.as_str(),
            top.sent_by.as_str(),
            request.method.as_str(),
        )?;
        Ok(Some(transaction))
    }

    /// The texts of a key in one.
    fn joined(
        alloc: Global,
        branch: &str,
        sent_by: &str,
        method: &str,
    ) -> Result<Transaction, NoMemory>
        ensures { IfOk result (λ t. parted t.branch t.sent_by (string_bytes t.texts)
            ≡ record { branch = branch.now; sent_by = sent_by.now; method = method.now }) }
    {
        let room = branch
            .len()
            .saturating_add(sent_by.len())
            .saturating_add(method.len());
        let mut texts = String::with_capacity(alloc, room)?;
        texts.push_str(branch)?;
        texts.push_str(sent_by)?;
        texts.push_str(method)?;
        Ok(Transaction {
            number: key_hash(branch),
            texts,
            branch: branch.len(),
            sent_by: sent_by.len(),
        })
    }

    /// What has this key.
    pub fn named(alloc: Global, key: &Key) -> Result<Transaction, NoMemory>
        ensures { IfOk result (λ t. parted t.branch t.sent_by (string_bytes t.texts) ≡ key.now) }
    {
        Transaction::joined(
            alloc,
            key.branch.as_str(),
            key.sent_by.as_str(),
            key.method.as_str(),
        )
    }

    /// Another with the same texts.
    pub fn copy(&self, alloc: Global) -> Result<Transaction, NoMemory>
        ensures { IfOk result (λ t. parted t.branch t.sent_by (string_bytes t.texts)
            ≡ parted self.now.branch self.now.sent_by (string_bytes self.now.texts)) }
    {
        let texts = String::from_str(alloc, self.texts.as_str())?;
        Ok(Transaction {
            number: self.number,
            texts,
            branch: self.branch,
            sent_by: self.sent_by,
        })
    }

    /// The branch, the sent-by and the method.
    fn parts(&self) -> (&[u8], &[u8], &[u8])
        ensures branch { result.0.now ≡ (parted self.now.branch self.now.sent_by (string_bytes self.now.texts)).branch }
        ensures sent_by { result.1.now ≡ (parted self.now.branch self.now.sent_by (string_bytes self.now.texts)).sent_by }
        ensures method { result.2.now ≡ (parted self.now.branch self.now.sent_by (string_bytes self.now.texts)).method }
        ensures fit { IsKey (parted self.now.branch self.now.sent_by (string_bytes self.now.texts)) }
    {
        let texts = self.texts.as_str();
        let _length = texts.len();
        let texts = texts.as_bytes();
        let (branch, rest) = texts.split_at(self.branch);
        let (sent_by, method) = rest.split_at(self.sent_by);
        (branch, sent_by, method)
    }

    /// Appends the texts of its key.
    pub fn write(&self, out: &mut Vec<u8>) -> Result<(), NoMemory>
        ensures text { OnOk result (out.new.items ≡ out.old.items
            ++ key_text (parted self.now.branch self.now.sent_by (string_bytes self.now.texts))) }
        ensures fits { IsKey (parted self.now.branch self.now.sent_by (string_bytes self.now.texts)) }
    {
        let (branch, sent_by, method) = self.parts();
        put_bytes(branch, out)?;
        put_bytes(sent_by, out)?;
        put_bytes(method, out)?;
        Ok(())
    }
}
