//! Laws of what is written and read, over the definitions alone.

ghost use Rattle.mysql_handshake_response.specs.SslRequestLaws.{SslRequestsReadBack};

/// Written requests for a secure connection are read back, whatever follows them.
#[tactic(auto, using(crate::proofs::Rules::read_back))]
pub fn ssl_requests_read_back()
    ensures { SslRequestsReadBack }
{}
