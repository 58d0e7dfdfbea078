//! The six kinds of certificates and their first lines.
ghost use Rattle.std.specs.Prelude.{◌≡◌};
ghost use Rattle.cover_certificate.specs.Kinds.{first_bytes, kind_of};

/// The kind of a certificate.
#[derive(Clone, Copy)]
pub(crate) enum Kind {
    Located,
    NoFit,
    Few,
    Many,
    Budget,
    NearLimit,
}

const KINDS: [Kind; 6] = [
    Kind::Located,
    Kind::NoFit,
    Kind::Few,
    Kind::Many,
    Kind::Budget,
    Kind::NearLimit,
];

impl Kind {
    /// The bytes of the first line of a certificate of this kind, without the line feed.
    pub(crate) fn first_line(self) -> &'static [u8]
        ensures { result.now ≡ first_bytes self }
    {
        match self {
            Kind::Located => b"CERT LOCATED",
            Kind::NoFit => b"CERT NOFIT",
            Kind::Few => b"CERT FEW",
            Kind::Many => b"CERT MANY",
            Kind::Budget => b"CERT BUDGET",
            Kind::NearLimit => b"CERT NEARLIMIT",
        }
    }

    /// The kind of certificate that has this first line, if there is one.
    pub(crate) fn of_line(bytes: &[u8]) -> Option<Kind>
        ensures { result ≡ kind_of bytes.now }
    {
        for kind in KINDS {
            if kind.first_line() == bytes {
                return Some(kind);
            }
        }
        None
    }
}
