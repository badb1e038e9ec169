// The octets of requests, responses and a notice.

/// A command with a key, and one with a tunnel that isn't there.
pub const KEYS: &str =
    "POST /restconf/operations/ikl-control:keys HTTP/1.1\r\nHost: 127.0.0.1\r\nContent-Type: application/yang-data+json\r\nContent-Length: 91\r\n\r\n{\"ikl-control:input\":{\"key\":\"00:01:02:03:04:05:06:07:08:09:0a:0b:0c:0d:0e:0f:a0:a1:a2:a3\"}}";

pub const REKEY: &str =
    "POST /restconf/operations/ikl-control:rekey HTTP/1.1\r\nHost: 127.0.0.1\r\nContent-Type: application/yang-data+json\r\nContent-Length: 35\r\n\r\n{\"ikl-control:input\":{\"reqid\":\"9\"}}";

/// What is replied to a command: it is accepted, or what is wrong.
pub const DONE: &str = "HTTP/1.1 204 No Content\r\n\r\n";

pub const NO_TUNNEL: &str =
    "HTTP/1.1 404 Not Found\r\nContent-Length: 121\r\nContent-Type: application/yang-data+json\r\n\r\n{\"ietf-restconf:errors\":{\"error\":[{\"error-app-tag\":\"no-tunnel\",\"error-tag\":\"invalid-value\",\"error-type\":\"application\"}]}}";

pub const NO_PATH: &str =
    "HTTP/1.1 404 Not Found\r\nContent-Length: 113\r\nContent-Type: application/yang-data+json\r\n\r\n{\"ietf-restconf:errors\":{\"error\":[{\"error-app-tag\":\"path\",\"error-tag\":\"invalid-value\",\"error-type\":\"protocol\"}]}}";

pub const BAD_HEAD: &str =
    "HTTP/1.1 400 Bad Request\r\nContent-Length: 117\r\nContent-Type: application/yang-data+json\r\n\r\n{\"ietf-restconf:errors\":{\"error\":[{\"error-app-tag\":\"form\",\"error-tag\":\"malformed-message\",\"error-type\":\"protocol\"}]}}";

/// What a controller asks a gateway first, and the answer of one without halves.
pub const READING: &str =
    "GET /restconf/data/ietf-i2nsf-ikeless:ipsec-ikeless/sad HTTP/1.1\r\nHost: 192.0.2.1\r\n\r\n";

pub const NO_HALVES: &str =
    "HTTP/1.1 200 OK\r\nContent-Length: 43\r\nContent-Type: application/yang-data+json\r\n\r\n{\"ietf-i2nsf-ikeless:sad\":{\"sad-entry\":[]}}";

/// A notice.
pub const BAD_SPI: &str =
    "{\"ietf-restconf:notification\":{\"eventTime\":\"1970-01-01T01:00:00Z\",\"ietf-i2nsf-ikeless:sadb-bad-spi\":{\"spi\":257}}}\n";
