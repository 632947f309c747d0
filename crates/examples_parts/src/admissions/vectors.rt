//! Responses that are known.

use digest::response::response;
use digest::{Algorithm, Credentials};
use std::alloc::Global;
use std::io;

/// A value of `Authorization` in a request of this method, with H(A1) of its password.
struct Vector {
    title: &'static str,
    algorithm: Algorithm,
    secret: &'static str,
    value: &'static str,
}

const VECTORS: [Vector; 4] = [
    Vector {
        title: "RFC 2617 section 3.5",
        algorithm: Algorithm::Md5,
        secret: "939e7578ed9e3c518a452acee763bce9",
        value: "Digest username=\"Mufasa\", realm=\"testrealm@host.com\", \
            nonce=\"dcd98b7102dd2f0e8b11d0f600bfb0c093\", uri=\"/dir/index.html\", qop=auth, nc=00000001, \
            cnonce=\"0a4f113b\", response=\"6629fae49393a05397450978507c4ef1\", opaque=\"5ccc069c403ebaf9f0171e9517f40e41\"",
    },
    Vector {
        title: "RFC 7616 section 3.9.1, MD5",
        algorithm: Algorithm::Md5,
        secret: "3d78807defe7de2157e2b0b6573a855f",
        value: "Digest username=\"Mufasa\", realm=\"http-auth@example.org\", uri=\"/dir/index.html\", algorithm=MD5, \
            nonce=\"7ypf/xlj9XXwfDPEoM4URrv/xwf94BcCAzFZH4GiTo0v\", nc=00000001, \
            cnonce=\"f2/wE4q74E6zIJEtWaHKaf5wv/H5QzzpXusqGemxURZJ\", qop=auth, \
            response=\"8ca523f5e9506fed4657c9700eebdbec\", opaque=\"FQhe/qaU925kfnzjCev0ciny7QMkPqMAFRtzCUYo5tdS\"",
    },
    Vector {
        title: "RFC 7616 section 3.9.1, SHA-256",
        algorithm: Algorithm::Sha256,
        secret: "7987c64c30e25f1b74be53f966b49b90f2808aa92faf9a00262392d7b4794232",
        value: "Digest username=\"Mufasa\", realm=\"http-auth@example.org\", uri=\"/dir/index.html\", algorithm=SHA-256, \
            nonce=\"7ypf/xlj9XXwfDPEoM4URrv/xwf94BcCAzFZH4GiTo0v\", nc=00000001, \
            cnonce=\"f2/wE4q74E6zIJEtWaHKaf5wv/H5QzzpXusqGemxURZJ\", qop=auth, \
            response=\"753927fa0e85d155564e2e272a28d1802ca10daf4496794697cf8db5856cb6c1\", \
            opaque=\"FQhe/qaU925kfnzjCev0ciny7QMkPqMAFRtzCUYo5tdS\"",
    },
    Vector {
        title: "RFC 2069 section 2.4, by its erratum",
        algorithm: Algorithm::Md5,
        secret: "4945ecf42b1bb868634058a845bedde8",
        value: "Digest username=\"Mufasa\", realm=\"testrealm@host.com\", \
            nonce=\"dcd98b7102dd2f0e8b11d0f600bfb0c093\", uri=\"/dir/index.html\", \
            response=\"1949323746fe6a43ef61f9606e7febea\", opaque=\"5ccc069c403ebaf9f0171e9517f40e41\"",
    },
];

/// Whether the response in the value is the one of this password.
fn is_right(alloc: Global, vector: &Vector) -> bool {
    let Ok(credentials) = Credentials::read(alloc, vector.value) else {
        return false;
    };
    match response(alloc, vector.algorithm, vector.secret, &credentials, "GET") {
        Ok(expected) => expected.is(credentials.response.as_str()),
        Err(_) => false,
    }
}

/// Tells of each vector whether its response is the one that is made.
pub fn tell_all(rt: &(impl Print + AllocGlobal)) -> io::Result<()> {
    for vector in VECTORS.iter() {
        println!(rt; "{}: {}", vector.title, is_right(rt.alloc(), vector))?;
    }
    Ok(())
}
