//! Laws of the payloads of logging in. Functions without a result do nothing: their contracts are the laws.

ghost use Rattle.mysql_authentication.specs.Statements.{AuthenticationsArePut, AuthenticationsReadAgain};
ghost use Rattle.mysql_authentication.specs.Statements.{AuthenticationsReadBack, GreetingsArePut, GreetingsReadAgain};
ghost use Rattle.mysql_authentication.specs.Statements.{GreetingsReadBack, ResponsesReadAgain};
ghost use Rattle.mysql_authentication.specs.Statements.{RefusedAuthenticationsReadOtherwise};
ghost use Rattle.mysql_authentication.specs.Statements.{RefusedGreetingsReadOtherwise, RefusedResponsesReadOtherwise};
ghost use Rattle.mysql_authentication.specs.Statements.{ResponsesArePut, ResponsesReadBack};

/// A payload of an authentication that is put is read as the event.
#[tactic(auto, using(crate::proofs::AuthenticationsBack::authentications_read_back))]
pub fn authentications_read_back()
    ensures { AuthenticationsReadBack }
{}

/// An event that a payload of an authentication was read as is put.
#[tactic(auto, using(crate::proofs::AuthenticationsPut::authentications_are_put))]
pub fn authentications_are_put()
    ensures { AuthenticationsArePut }
{}

/// A payload of an authentication that isn't put would be read otherwise.
#[tactic(auto, using(crate::proofs::AuthenticationsPut::refused_read_otherwise))]
pub fn refused_authentications_read_otherwise()
    ensures { RefusedAuthenticationsReadOtherwise }
{}

/// A server's first payload that is put is read as the event.
#[tactic(auto, using(crate::proofs::GreetingsBack::greetings_read_back))]
pub fn greetings_read_back()
    ensures { GreetingsReadBack }
{}

/// An event that a server's first payload was read as is put.
#[tactic(auto, using(crate::proofs::GreetingsPut::greetings_are_put))]
pub fn greetings_are_put()
    ensures { GreetingsArePut }
{}

/// A server's first payload that isn't put would be read otherwise.
#[tactic(auto, using(crate::proofs::GreetingsPut::refused_greetings_read_otherwise))]
pub fn refused_greetings_read_otherwise()
    ensures { RefusedGreetingsReadOtherwise }
{}

/// A client's first payload that is put is read as the event.
#[tactic(auto, using(crate::proofs::ResponsesBack::responses_read_back))]
pub fn responses_read_back()
    ensures { ResponsesReadBack }
{}

/// An event that a client's first payload was read as is put.
#[tactic(auto, using(crate::proofs::ResponsesPut::responses_are_put))]
pub fn responses_are_put()
    ensures { ResponsesArePut }
{}

/// A client's first payload that isn't put would be read otherwise.
#[tactic(auto, using(crate::proofs::ResponsesPut::refused_responses_read_otherwise))]
pub fn refused_responses_read_otherwise()
    ensures { RefusedResponsesReadOtherwise }
{}

/// What a server's first payload was read as is read again of what is put.
#[tactic(auto, using(crate::proofs::ReadAgain::greetings_read_again))]
pub fn greetings_read_again()
    ensures { GreetingsReadAgain }
{}

/// What a client's first payload was read as is read again of what is put.
#[tactic(auto, using(crate::proofs::ReadAgain::responses_read_again))]
pub fn responses_read_again()
    ensures { ResponsesReadAgain }
{}

/// What a payload of an authentication was read as is read again of what is put.
#[tactic(auto, using(crate::proofs::ReadAgain::authentications_read_again))]
pub fn authentications_read_again()
    ensures { AuthenticationsReadAgain }
{}
