//! Facts that hold of all messages.
ghost use Rattle.std.specs.Prelude.{◌≡◌, ◌↔◌, ◌<◌, ◌≤◌, ◌⊎◌, ℕ, List, [], ◌++◌, length, IsUtf8};
ghost use Rattle.httparse.specs.Grammar.{AllPass, IsToken, is_uri_byte, RequestHead, ReadsRequest, print_request, ResponseHead, ReadsResponse, print_response};
ghost use Rattle.druid_http_wire.specs.Frame.{IsFramed, EndsInHead, IsLongHead};
ghost use Rattle.druid_http_wire.specs.Grammar.{bare_request, bare_response, IsGrammarRequest, IsGrammarResponse};
ghost use Rattle.druid_http_message.specs.Requests.{RequestValue};
ghost use Rattle.druid_http_wire.specs.Messages.{IsRequest, IsResponse, HasFault, RequestSays, ResponseSays};
ghost use Rattle.druid_http_wire.specs.Written.{request_head, request_text, response_text};
ghost use Rattle.druid_http_message.specs.declared.fault.WireFault.{WireFault};
ghost use Rattle.druid_http_message.specs.declared.fault.WireFault.TheVariants.{Read, Memory};
ghost use Rattle.druid_http_wire.specs.Limits.{max_head, max_body};

/// An input has one head, and one rest after it. It neither ends in the head, nor is the head too long.
pub fn one_head()
    ensures one { (input a b r s : List ℕ) → IsFramed input a r → IsFramed input b s → (a ≡ b) × (r ≡ s) }
    ensures whole { (input head rest : List ℕ) → IsFramed input head rest → ¬ (EndsInHead input) }
    ensures short { (input head rest : List ℕ) → IsFramed input head rest → ¬ (IsLongHead input) }
{}

/// Each head of the grammar is a head for the reader too, where it has no more bytes than a head may have, the blank lines
/// before it counted: framed, and still that head without them.
pub fn heads_are_framed()
    ensures requests { (input rest : List ℕ) (head : RequestHead) → ReadsRequest input head rest → length (print_request head) ≤ max_head
        → IsFramed input (print_request (bare_request head)) rest × ReadsRequest (print_request (bare_request head)) (bare_request head) [] }
    ensures responses { (input rest : List ℕ) (head : ResponseHead) → ReadsResponse input head rest → length (print_response head) ≤ max_head
        → IsFramed input (print_response (bare_response head)) rest × ReadsResponse (print_response (bare_response head)) (bare_response head) [] }
{}

/// An input is a request just where it is one of the grammar: blank lines and a head, together within the limits, that says
/// how long the body is, a body of that length, and then the rest. The same of responses.
pub fn messages_are_of_the_grammar()
    ensures requests { (input : List ℕ) (request : RequestValue) (rest : List ℕ) → IsRequest input request rest ↔ IsGrammarRequest input request rest }
    ensures responses { (input : List ℕ) (status : ℕ) (body rest : List ℕ) → IsResponse input status body rest ↔ IsGrammarResponse input status body rest }
{}

/// An input is one request, with one rest after it.
pub fn one_request()
    ensures { (input : List ℕ) (a b : RequestValue) (r s : List ℕ) → IsRequest input a r → IsRequest input b s → (a ≡ b) × (r ≡ s) }
{}

/// An input is one response, with one rest after it.
pub fn one_response()
    ensures { (input : List ℕ) (m n : ℕ) (a b r s : List ℕ) → IsResponse input m a r → IsResponse input n b s → (m ≡ n) × (a ≡ b) × (r ≡ s) }
{}

/// Of an input that is a request only a failed reader or lack of memory is reported: else it is read as that request.
pub fn requests_have_no_fault()
    ensures { (input : List ℕ) (request : RequestValue) (rest : List ℕ) (fault : WireFault) → IsRequest input request rest → HasFault RequestSays input fault
        → (fault ≡ Read) ⊎ (fault ≡ Memory) }
{}

/// The same of responses.
pub fn responses_have_no_fault()
    ensures { (input : List ℕ) (status : ℕ) (body rest : List ℕ) (fault : WireFault) → IsResponse input status body rest → HasFault ResponseSays input fault
        → (fault ≡ Read) ⊎ (fault ≡ Memory) }
{}

/// A request that is written is read as the same request, whatever follows it: its method is a token, its target a text of
/// bytes that a target may have, and its body and its head are within their limits.
pub fn requests_are_read_back()
    ensures { (request : RequestValue) (rest : List ℕ) → IsToken request.method → 0 < length request.target → AllPass is_uri_byte request.target → IsUtf8 request.target
        → length request.body ≤ max_body → length (request_head request) ≤ max_head → IsRequest (request_text request ++ rest) request rest }
{}

/// A response that is written is read as the same response, whatever follows it: each status of 100 to 999, and each body
/// within the limit.
pub fn responses_are_read_back()
    ensures { (status : ℕ) (body rest : List ℕ) → 100 ≤ status → status < 1000 → length body ≤ max_body → IsResponse (response_text status body ++ rest) status body rest }
{}
