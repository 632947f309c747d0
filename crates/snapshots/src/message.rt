//! Requests and responses, written and read.
ghost use Rattle.std.specs.Prelude.{◌≡◌};
ghost use Rattle.snapshots.specs.Messages.{bool_text, bool_at, IsBool, via_text, via_at, IsVia, party_text, party_at, IsParty, head_text, head_at, IsHead, request_text, request_at, IsRequest, response_text, response_at, IsResponse};

use crate::form::Form;
use event_headers::{EventValue, Range};
use sip_read::{Boxed, Head, Party, Request, Response, Via};
use sip_text::{Field, NoMemory, Octets, Text, Values};
use std::alloc::Global;

impl Form for bool {
    ghost text = { bool_text };

    ghost at = { bool_at };

    ghost Fits = { IsBool };

    fn fits(&self) {}

    fn put(&self, _alloc: Global, out: &mut Vec<u8>) -> Result<(), NoMemory> {
        if *self {
            out.push(b'+')?;
            return Ok(());
        }
        out.push(b'-')?;
        Ok(())
    }

    #[tactic(auto, unfolding(crate::specs::Messages::bool_at))]
    fn cut(_alloc: Global, bytes: &[u8]) -> Result<Option<(bool, &[u8])>, NoMemory> {
        let Some((mark, rest)) = bytes.split_first() else {
            return Ok(None);
        };
        if *mark == b'+' {
            return Ok(Some((true, rest)));
        }
        if *mark == b'-' {
            return Ok(Some((false, rest)));
        }
        Ok(None)
    }
}

impl Form for Via {
    ghost text = { via_text };

    ghost at = { via_at };

    ghost Fits = { IsVia };

    fn fits(&self) {
        self.sent_by.fits();
        self.branch.fits();
    }

    fn put(&self, alloc: Global, out: &mut Vec<u8>) -> Result<(), NoMemory> {
        self.sent_by.put(alloc, out)?;
        self.branch.put(alloc, out)?;
        self.bare_rport.put(alloc, out)?;
        Ok(())
    }

    #[tactic(auto, unfolding(crate::specs::Messages::via_at))]
    fn cut(alloc: Global, bytes: &[u8]) -> Result<Option<(Via, &[u8])>, NoMemory> {
        let Some((parts, rest)) = <(Text, (Option<Text>, bool))>::cut(alloc, bytes)? else {
            return Ok(None);
        };
        let (sent_by, (branch, bare_rport)) = parts;
        let via = Via {
            sent_by,
            branch,
            bare_rport,
        };
        Ok(Some((via, rest)))
    }
}

impl Form for Party {
    ghost text = { party_text };

    ghost at = { party_at };

    ghost Fits = { IsParty };

    fn fits(&self) {
        self.text.fits();
        self.tag.fits();
    }

    fn put(&self, alloc: Global, out: &mut Vec<u8>) -> Result<(), NoMemory> {
        self.text.put(alloc, out)?;
        self.tag.put(alloc, out)?;
        Ok(())
    }

    #[tactic(auto, unfolding(crate::specs::Messages::party_at))]
    fn cut(alloc: Global, bytes: &[u8]) -> Result<Option<(Party, &[u8])>, NoMemory> {
        let Some((parts, rest)) = <(Text, Option<Text>)>::cut(alloc, bytes)? else {
            return Ok(None);
        };
        let (text, tag) = parts;
        Ok(Some((Party { text, tag }, rest)))
    }
}

type HeadParts = (Values<Text>, (Via, (Party, (Party, (Text, (u32, Text))))));

impl Form for Head {
    ghost text = { head_text };

    ghost at = { head_at };

    ghost Fits = { IsHead };

    fn fits(&self) {
        self.vias.fits();
        self.top.fits();
        self.from.fits();
        self.to.fits();
        self.call_id.fits();
        self.cseq.fits();
        self.cseq_method.fits();
    }

    fn put(&self, alloc: Global, out: &mut Vec<u8>) -> Result<(), NoMemory> {
        self.vias.put(alloc, out)?;
        self.top.put(alloc, out)?;
        self.from.put(alloc, out)?;
        self.to.put(alloc, out)?;
        self.call_id.put(alloc, out)?;
        self.cseq.put(alloc, out)?;
        self.cseq_method.put(alloc, out)?;
        Ok(())
    }

    #[tactic(auto, unfolding(crate::specs::Messages::head_at))]
    fn cut(alloc: Global, bytes: &[u8]) -> Result<Option<(Head, &[u8])>, NoMemory> {
        let Some((parts, rest)) = HeadParts::cut(alloc, bytes)? else {
            return Ok(None);
        };
        let (vias, (top, (from, (to, (call_id, (cseq, cseq_method)))))) = parts;
        let head = Head {
            vias,
            top,
            from,
            to,
            call_id,
            cseq,
            cseq_method,
        };
        Ok(Some((head, rest)))
    }
}

type RequestParts = (
    Text,
    (
        Text,
        (
            Head,
            (
                Field<EventValue>,
                (
                    Field<u32>,
                    (
                        Field<Values<Range>>,
                        (
                            Field<Text>,
                            (
                                Field<Text>,
                                (Field<bool>, (Values<Text>, (Values<Text>, Octets))),
                            ),
                        ),
                    ),
                ),
            ),
        ),
    ),
);

impl Form for Request {
    ghost text = { request_text };

    ghost at = { request_at };

    ghost Fits = { IsRequest };

    fn fits(&self) {
        self.method.fits();
        self.uri.fits();
        self.head.fits();
        self.event.fits();
        self.expires.fits();
        self.accept.fits();
        self.contact.fits();
        self.refer_to.fits();
        self.refer_sub.fits();
        self.require.fits();
        self.record_routes.fits();
        self.body.fits();
    }

    fn put(&self, alloc: Global, out: &mut Vec<u8>) -> Result<(), NoMemory> {
        self.method.put(alloc, out)?;
        self.uri.put(alloc, out)?;
        self.head.put(alloc, out)?;
        self.event.put(alloc, out)?;
        self.expires.put(alloc, out)?;
        self.accept.put(alloc, out)?;
        self.contact.put(alloc, out)?;
        self.refer_to.put(alloc, out)?;
        self.refer_sub.put(alloc, out)?;
        self.require.put(alloc, out)?;
        self.record_routes.put(alloc, out)?;
        self.body.put(alloc, out)?;
        Ok(())
    }

    #[tactic(auto, unfolding(crate::specs::Messages::request_at))]
    fn cut(alloc: Global, bytes: &[u8]) -> Result<Option<(Request, &[u8])>, NoMemory> {
        let Some((parts, rest)) = RequestParts::cut(alloc, bytes)? else {
            return Ok(None);
        };
        let (
            method,
            (
                uri,
                (
                    head,
                    (
                        event,
                        (
                            expires,
                            (
                                accept,
                                (
                                    contact,
                                    (refer_to, (refer_sub, (require, (record_routes, body)))),
                                ),
                            ),
                        ),
                    ),
                ),
            ),
        ) = parts;
        let request = Request {
            method,
            uri,
            head,
            event,
            expires,
            accept,
            contact,
            refer_to,
            refer_sub,
            require,
            record_routes,
            body,
        };
        Ok(Some((request, rest)))
    }
}

impl Form for Response {
    ghost text = { response_text };

    ghost at = { response_at };

    ghost Fits = { IsResponse };

    fn fits(&self) {
        self.status.fits();
        self.reason.fits();
        self.head.fits();
    }

    fn put(&self, alloc: Global, out: &mut Vec<u8>) -> Result<(), NoMemory> {
        self.status.put(alloc, out)?;
        self.reason.put(alloc, out)?;
        self.head.put(alloc, out)?;
        Ok(())
    }

    #[tactic(auto, unfolding(crate::specs::Messages::response_at))]
    fn cut(alloc: Global, bytes: &[u8]) -> Result<Option<(Response, &[u8])>, NoMemory> {
        let Some((parts, rest)) = <(u16, (Text, Head))>::cut(alloc, bytes)? else {
            return Ok(None);
        };
        let (status, (reason, head)) = parts;
        let response = Response {
            status,
            reason,
            head,
        };
        Ok(Some((response, rest)))
    }
}

impl<T: Form> Form for Boxed<T> {
    ghost text = { T.text };

    ghost at = { T.at };

    ghost Fits = { T.Fits };

    fn fits(&self) {
        let value: &T = self;
        value.fits();
    }

    fn put(&self, alloc: Global, out: &mut Vec<u8>) -> Result<(), NoMemory> {
        let value: &T = self;
        value.put(alloc, out)
    }

    fn cut(alloc: Global, bytes: &[u8]) -> Result<Option<(Boxed<T>, &[u8])>, NoMemory> {
        let Some((value, rest)) = T::cut(alloc, bytes)? else {
            return Ok(None);
        };
        let value = Boxed::new(alloc, value)?;
        Ok(Some((value, rest)))
    }
}
