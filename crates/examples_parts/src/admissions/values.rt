//! Values of `Authorization`.

use digest::{Credentials, Protection};
use std::alloc::Global;
use std::io;

/// Parameters that suffice, behind which more may stand.
const ENOUGH: &str = "Digest username=\"a\",realm=\"r\",nonce=\"n\",uri=\"sip:b\",response=\"f\"";

/// What stands behind them, and what is wrong with it.
const BEHIND: [(&str, &str); 20] = [
    ("", "nothing: it is the old form"),
    (",qop=auth,nc=00000001,cnonce=\"c\"", "nothing"),
    (
        " , QOP = \"auth\" , nc=0000000f,cnonce=c",
        "nothing: names ignore case, spaces may stand",
    ),
    (",x=y,auth-y=\"z\"", "nothing: unknown ones are skipped"),
    (",algorithm=SHA-256", "nothing"),
    (",algorithm=MD5-sess", "nothing yet: the guard refuses it"),
    (",opaque=\"o\\\"\\\\\"", "nothing: a quote and a backslash"),
    (",username=\"b\"", "username twice"),
    (",NC=00000001,nc=00000001", "nc twice"),
    (",qop=auth-int,nc=00000001,cnonce=\"c\"", "qop is auth-int"),
    (",qop=auth,nc=00000001", "no cnonce"),
    (",qop=auth,cnonce=\"c\"", "no nc"),
    (",qop=auth,nc=1,cnonce=\"c\"", "nc of one digit"),
    (",qop=auth,nc=0000000g,cnonce=\"c\"", "nc with a g"),
    (",", "a comma with nothing behind"),
    (",,x=y", "two commas"),
    (",x", "no equals sign"),
    (",x=", "no value"),
    (",x=\"y", "no closing quote"),
    (",x=y z", "two words"),
];

/// Whole values, and what is wrong with each.
const WHOLE: [(&str, &str); 12] = [
    ("", "nothing there"),
    ("Digest", "no list"),
    ("Digest ", "an empty list"),
    ("Basic QTpi", "another scheme"),
    ("Bearer realm=\"r\"", "another scheme"),
    ("Digestusername=\"a\"", "no space behind the scheme"),
    ("dIGEST realm=\"r\"", "no username"),
    ("Digest username=\"a\"", "no realm"),
    ("Digest username=\"a\",realm=\"r\"", "no nonce"),
    ("Digest username=\"a\",realm=\"r\",nonce=\"n\"", "no uri"),
    (
        "Digest username=\"a\",realm=\"r\",nonce=\"n\",uri=\"u\"",
        "no response",
    ),
    ("Digest realm=\"r\";username=\"a\"", "a semicolon"),
];

/// What is read: 0, or the number of the error.
fn number(alloc: Global, value: &str) -> u32 {
    match Credentials::read(alloc, value) {
        Ok(_) => 0,
        Err(error) => error.number(),
    }
}

fn tell(rt: &(impl Print + AllocGlobal), value: &str, why: &str) -> io::Result<()> {
    println!(rt; "{} {why}", number(rt.alloc(), value))
}

/// Whether quotes and backslashes are gone from each text.
fn is_plain(alloc: Global) -> bool {
    let value =
        "Digest username=\"a\\\"b\\\\\",realm=r,nonce=\"\",uri=\"u\",response=f,qop=auth,nc=0000000A,cnonce=\"\\c\"";
    match Credentials::read(alloc, value) {
        Ok(credentials) => {
            credentials.username.is("a\"b\\")
                && credentials.realm.is("r")
                && credentials.nonce.is("")
                && is_protected(&credentials.protection)
        }
        Err(_) => false,
    }
}

fn is_protected(protection: &Protection) -> bool {
    match protection {
        Protection::Auth(count, client_nonce) => count.is("0000000A") && client_nonce.is("c"),
        Protection::Old => false,
    }
}

/// Tells of each value what is read.
pub fn tell_all(rt: &(impl Print + AllocGlobal)) -> io::Result<()> {
    for (behind, why) in BEHIND.iter() {
        let value = format!(in rt.alloc(); "{ENOUGH}{behind}")?;
        tell(rt, value.as_str(), why)?;
    }
    for (value, why) in WHOLE.iter() {
        tell(rt, value, why)?;
    }
    println!(rt; "without quotes and backslashes: {}", is_plain(rt.alloc()))
}
