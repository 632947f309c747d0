//! A SUBSCRIBE, its answer and its first NOTIFY, as they were written down beforehand.

/// A SUBSCRIBE for alice's mailbox, of 284 octets.
pub(crate) const SUBSCRIBE: &str = "SUBSCRIBE sip:alice@127.0.0.1 SIP/2.0\r\n\
Via: SIP/2.0/UDP 127.0.0.1:5070;branch=z9hG4bKa1\r\n\
Max-Forwards: 70\r\n\
From: <sip:alice@127.0.0.1>;tag=f1\r\n\
To: <sip:alice@127.0.0.1>\r\n\
Call-ID: c1\r\n\
CSeq: 1 SUBSCRIBE\r\n\
Contact: <sip:alice@127.0.0.1:5070>\r\n\
Event: message-summary\r\n\
Content-Length: 0\r\n\
\r\n";

/// Its answer by a notifier at 127.0.0.1:5060 whose seed is zero, of 254 octets.
pub(crate) const ANSWER: &str = "SIP/2.0 200 OK\r\n\
Via: SIP/2.0/UDP 127.0.0.1:5070;branch=z9hG4bKa1\r\n\
From: <sip:alice@127.0.0.1>;tag=f1\r\n\
To: <sip:alice@127.0.0.1>;tag=w0-1-76b8e0ada0f13d90\r\n\
Call-ID: c1\r\n\
CSeq: 1 SUBSCRIBE\r\n\
Contact: <sip:127.0.0.1:5060>\r\n\
Expires: 3600\r\n\
Content-Length: 0\r\n\
\r\n";

/// The NOTIFY that follows, of 439 octets.
pub(crate) const NOTIFY: &str = "NOTIFY sip:alice@127.0.0.1:5070 SIP/2.0\r\n\
Via: SIP/2.0/UDP 127.0.0.1:5060;branch=z9hG4bK-w0-1-76b8e0ada0f13d90-1\r\n\
Max-Forwards: 70\r\n\
From: <sip:alice@127.0.0.1>;tag=w0-1-76b8e0ada0f13d90\r\n\
To: <sip:alice@127.0.0.1>;tag=f1\r\n\
Call-ID: c1\r\n\
CSeq: 1 NOTIFY\r\n\
Contact: <sip:127.0.0.1:5060>\r\n\
Event: message-summary\r\n\
Subscription-State: active;expires=3600\r\n\
Content-Type: application/simple-message-summary\r\n\
Content-Length: 22\r\n\
\r\n\
Messages-Waiting: no\r\n";
