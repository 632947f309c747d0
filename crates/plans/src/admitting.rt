//! Who is heard by a service, as its settings and its file of passwords say.
ghost use Rattle.std.specs.Prelude.{◌≡◌, ◌⊎◌, true, false, All, IfOk, IfErr, IsOk, OnOk};
ghost use Rattle.notifier_model.specs.Tag.{refusal_tag};
ghost use Rattle.arguments.specs.Choices.{choices_of, password_file as path_of, further_mailboxes as pairs_of};
ghost use Rattle.plans.specs.declared.error.PlanError.TheVariants as error;
ghost use Rattle.plans.specs.Heard as spec;
ghost use Rattle.plans.specs.Heard.{Asks, IsAdmission, has_mailbox, HasFurther};
ghost use Rattle.plans.specs.Refused.{IsOfWatched, IsOfFurther, IsOfAdmission};

use crate::error::PlanError;
use crate::passwords::file_users;
use admission::{Admission, Authentication, Guesses, Rate, Rates};
use arguments::{Choices, Setting, allowed_networks, further_mailboxes, password_file};
use digest::{Algorithm, Guard, Nonces, Passwords};
use sip_text::{NoMemory, Text};
use std::alloc::Global;
use std::collections::hash_map::RandomState;
use std::num::NonZeroUsize;
use std::random::RandomSource;
use std::rt::Files;

/// So many source addresses have a bucket of tokens at most.
const SOURCES: usize = 16384;

/// For how many seconds a nonce is good, where nothing is said of it.
const NONCE_TIME: u32 = 300;

/// So many workers a service has at most. Their numbers are below it.
const WORKERS: u32 = 256;

/// 32 bytes of the system's randomness.
pub(crate) fn secret<R: RandomSource>(rt: &R) -> Result<[u8; 32], PlanError>
    ensures refused { IfErr result (λ e. e ≡ error.System) }
{
    let mut secret = [0; 32];
    match rt.fill_bytes(&mut secret) {
        Ok(()) => Ok(secret),
        Err(_) => Err(PlanError::System),
    }
}

/// Random keys to hash by what strangers choose.
fn hash_keys<R: RandomSource>(rt: &R) -> Result<RandomState, PlanError>
    ensures refused { IfErr result (λ e. e ≡ error.System) }
{
    match RandomState::new(rt) {
        Ok(keys) => Ok(keys),
        Err(_) => Err(PlanError::System),
    }
}

/// The buckets of a service that hears so much of each source.
fn source_rates<R>(rt: &R, asked: Option<Rate>) -> Result<Option<Rates>, PlanError>
where
    R: RandomSource + AllocGlobal,
    ensures rates { IfOk result (λ rates. rates ≡ spec.rates_of asked) }
    ensures refused { IfErr result (λ e. (e ≡ error.System) ⊎ (e ≡ error.NoMemory)) }
{
    let Some(size) = NonZeroUsize::new(SOURCES) else {
        unreachable!();
    };
    let Some(rate) = asked else {
        return Ok(None);
    };
    let keys = hash_keys(rt)?;
    Ok(Some(Rates::new(rt.alloc(), rate, size, keys)?))
}

/// The buckets of a service that looks at so many wrong passwords.
fn new_guesses<R>(rt: &R, asked: arguments::Guesses) -> Result<Guesses, PlanError>
where
    R: RandomSource + AllocGlobal,
    ensures guesses { IfOk result (λ guesses. guesses ≡ spec.guesses_of asked) }
    ensures refused { IfErr result (λ e. (e ≡ error.System) ⊎ (e ≡ error.NoMemory)) }
{
    let Some(size) = NonZeroUsize::new(SOURCES) else {
        unreachable!();
    };
    let rate = Rate {
        burst: asked.burst,
        per_second: asked.per_minute,
    };
    let keys = hash_keys(rt)?;
    let sources = Rates::new(rt.alloc(), rate, size, keys)?;
    let keys = hash_keys(rt)?;
    let names = Rates::new(rt.alloc(), rate, size, keys)?;
    Ok(Guesses { sources, names })
}

/// The tag of refusals: as that of a worker, but with a number that none has.
#[tactic(auto, unfolding(notifier_model::specs::Tag::refusal_tag))]
fn tag(alloc: Global) -> Result<Text, NoMemory>
    ensures { IfOk result (λ tag. tag ≡ refusal_tag 256) }
{
    let worker = WORKERS;
    let tag = format!(in alloc; "w{worker}-0")?;
    Ok(Text::new(tag))
}

/// Whether a password of the user is known.
fn is_user(passwords: &Passwords, user: &str) -> bool
    ensures { result ≡ spec.is_user passwords.now user.now }
{
    passwords.hash(Algorithm::Md5, user).is_some()
        || passwords.hash(Algorithm::Sha256, user).is_some()
}

/// Sees that a password is known of each user who may watch a further mailbox.
fn check_users(
    alloc: Global,
    passwords: &Passwords,
    further: &[(Text, Text)],
) -> Result<(), PlanError>
    ensures known { OnOk result (All (λ pair. spec.is_user passwords.now pair.0 ≡ true) further.now) }
    ensures refused { IfErr result (IsOfWatched passwords.now further.now) }
{
    for pair in further {
        if !is_user(passwords, pair.0.as_str()) {
            let user = pair.0.copy(alloc)?;
            return Err(PlanError::NoUser(user));
        }
    }
    Ok(())
}

/// Whether the service has this mailbox.
fn has_mailbox(mailboxes: &[Text], mailbox: &str) -> bool
    ensures { result ≡ has_mailbox mailboxes.now mailbox.now }
{
    mailboxes.iter().any(|name| name.is(mailbox))
}

/// Sees that the service has each of these further mailboxes.
fn check_mailboxes(
    alloc: Global,
    mailboxes: &[Text],
    further: &[(Text, Text)],
) -> Result<(), PlanError>
    ensures accepted { OnOk result (HasFurther mailboxes.now further.now) }
    ensures refused { IfErr result (IsOfFurther mailboxes.now further.now) }
{
    for pair in further {
        if !has_mailbox(mailboxes, pair.1.as_str()) {
            let mailbox = pair.1.copy(alloc)?;
            return Err(PlanError::NoFurther(mailbox));
        }
    }
    Ok(())
}

/// Sees that a service with these mailboxes has each further one that a user may watch, unless lines make mailboxes. An error names one that it
/// doesn't have, or memory ran out.
pub(crate) fn check_watched(
    alloc: Global,
    settings: &[Setting],
    mailboxes: &[Text],
) -> Result<(), PlanError>
    ensures any { (choices_of settings.now).any_mailbox ≡ true → IsOk result }
    ensures accepted { OnOk result ((choices_of settings.now).any_mailbox ≡ false → HasFurther mailboxes.now (pairs_of settings.now)) }
    ensures refused { IfErr result (IsOfFurther mailboxes.now (pairs_of settings.now)) }
{
    if Choices::of(settings).any_mailbox {
        return Ok(());
    }
    let further = further_mailboxes(alloc, settings)?;
    check_mailboxes(alloc, mailboxes, further.as_slice())
}

/// Whether the settings speak of passwords, so that a file of them must be there.
fn needs_passwords(choices: &Choices, further: &[(Text, Text)]) -> bool
    ensures { result ≡ spec.needs_passwords choices.now further.now }
{
    !further.is_empty() || choices.numbers.nonce_time.is_some() || choices.old_digest
}

/// The nonces of a service. Their secret is random.
fn nonces<R: RandomSource>(rt: &R, choices: &Choices) -> Result<Nonces, PlanError>
    ensures time { IfOk result (λ nonces. nonces.time ≡ spec.nonce_time choices.now) }
    ensures refused { IfErr result (λ e. e ≡ error.System) }
{
    let time = choices.numbers.nonce_time.unwrap_or(NONCE_TIME);
    Ok(Nonces {
        secret: secret(rt)?,
        time: u64::from(time),
    })
}

/// Who may subscribe and refer: the users of the file that the settings name, or anyone, where they name none.
#[tactic(auto, using(crate::proofs::Heard::asks_none, crate::proofs::Heard::asks_some, crate::proofs::Refused::of_watched_is))]
fn new_authentication<R>(rt: &R, settings: &[Setting]) -> Result<Option<Authentication>, PlanError>
where
    R: Files + RandomSource + AllocGlobal,
    ensures asks { IfOk result (Asks (path_of settings.now) (choices_of settings.now) (pairs_of settings.now)) }
    ensures refused { IfErr result (IsOfAdmission settings.now) }
{
    let alloc = rt.alloc();
    let choices = Choices::of(settings);
    let further = further_mailboxes(alloc, settings)?;
    let Some(path) = password_file(alloc, settings)? else {
        if needs_passwords(&choices, &further) {
            return Err(PlanError::NoPasswords);
        }
        return Ok(None);
    };
    let passwords = file_users(rt, &path)?;
    check_users(alloc, &passwords, &further)?;
    let guard = Guard {
        passwords,
        nonces: nonces(rt, &choices)?,
        old_digest: choices.old_digest,
    };
    Ok(Some(Authentication {
        guard,
        further,
        tag: tag(alloc)?,
    }))
}

/// Who is heard by a service with these settings. The file of passwords is read, and the system is asked for randomness.
pub(crate) fn new_admission<R>(rt: &R, settings: &[Setting]) -> Result<Admission, PlanError>
where
    R: Files + RandomSource + AllocGlobal,
    ensures admission { IfOk result (IsAdmission settings.now) }
    ensures refused { IfErr result (IsOfAdmission settings.now) }
{
    let alloc = rt.alloc();
    let choices = Choices::of(settings);
    let networks = allowed_networks(alloc, settings)?;
    let rates = source_rates(rt, choices.rate)?;
    let authentication = new_authentication(rt, settings)?;
    let guesses = new_guesses(rt, choices.guesses)?;
    Ok(Admission {
        networks,
        rates,
        authentication,
        guesses: Some(guesses),
        max_texts: Some(choices.numbers.max_texts),
        per_source: choices.numbers.per_source,
    })
}
