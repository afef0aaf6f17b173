// The refusals of what is no request. Each is a constant, so that none takes memory.
ghost use Rattle.std.specs.Prelude.{◌≡◌};
ghost use Rattle.exchange_replies.specs.Own as spec;

const BAD_REQUEST: &[u8] = b"HTTP/1.1 400 Bad Request\r\n\
Content-Type: application/json\r\nContent-Length: 143\r\nConnection: close\r\n\r\n\
{\"kind\":\"Status\",\"apiVersion\":\"v1\",\"metadata\":{},\"status\":\"Failure\",\
\"message\":\"the request could not be read\",\"reason\":\"BadRequest\",\"code\":400}";

const BODY_TOO_LARGE: &[u8] = b"HTTP/1.1 413 Payload Too Large\r\n\
Content-Type: application/json\r\nContent-Length: 154\r\nConnection: close\r\n\r\n\
{\"kind\":\"Status\",\"apiVersion\":\"v1\",\"metadata\":{},\"status\":\"Failure\",\
\"message\":\"the request body is too large\",\"reason\":\"RequestEntityTooLarge\",\"code\":413}";

const HEAD_TOO_LARGE: &[u8] = b"HTTP/1.1 431 Request Header Fields Too Large\r\n\
Content-Type: application/json\r\nContent-Length: 154\r\nConnection: close\r\n\r\n\
{\"kind\":\"Status\",\"apiVersion\":\"v1\",\"metadata\":{},\"status\":\"Failure\",\
\"message\":\"the request head is too large\",\"reason\":\"RequestHeaderTooLarge\",\"code\":431}";

/// The whole refusal of what is no request, after which the connection closes: its head and its body. The code is 400, 413 or
/// 431.
pub fn refusal_text(code: u16) -> &'static [u8]
    requires { spec.IsUnread code }
    ensures { result.now ≡ spec.refusal_text code }
{
    if code == 413 {
        BODY_TOO_LARGE
    } else if code == 431 {
        HEAD_TOO_LARGE
    } else {
        BAD_REQUEST
    }
}
