// What is said in a session, and what is replied to it.

/// A reading of all halves.
pub const READING: &str =
    "GET /restconf/data/ietf-i2nsf-ikeless:ipsec-ikeless/sad HTTP/1.1\r\nHost: 192.0.2.1\r\n\r\n";

/// Its answer where there are none.
pub const NO_HALVES: &str =
    "HTTP/1.1 200 OK\r\nContent-Length: 43\r\nContent-Type: application/yang-data+json\r\n\r\n{\"ietf-i2nsf-ikeless:sad\":{\"sad-entry\":[]}}";

/// A list of one policy that lets packets from 10.1.0.0/16 to 10.2.0.0/16 out in clear.
pub const BYPASS: &str =
    "PUT /restconf/data/ietf-i2nsf-ikeless:ipsec-ikeless/spd HTTP/1.1\r\nHost: 192.0.2.1\r\nContent-Length: 234\r\n\r\n{\"ietf-i2nsf-ikeless:spd\":{\"spd-entry\":[{\"name\":\"p1\",\"direction\":\"outbound\",\"reqid\":\"10\",\"ipsec-policy-config\":{\"traffic-selector\":{\"local-prefix\":\"10.1.0.0/16\",\"remote-prefix\":\"10.2.0.0/16\"},\"processing-info\":{\"action\":\"bypass\"}}}]}}";

/// And one that wants them sealed.
pub const PROTECT: &str =
    "PUT /restconf/data/ietf-i2nsf-ikeless:ipsec-ikeless/spd HTTP/1.1\r\nHost: 192.0.2.1\r\nContent-Length: 235\r\n\r\n{\"ietf-i2nsf-ikeless:spd\":{\"spd-entry\":[{\"name\":\"o1\",\"direction\":\"outbound\",\"reqid\":\"10\",\"ipsec-policy-config\":{\"traffic-selector\":{\"local-prefix\":\"10.1.0.0/16\",\"remote-prefix\":\"10.2.0.0/16\"},\"processing-info\":{\"action\":\"protect\"}}}]}}";

pub const DONE: &str = "HTTP/1.1 204 No Content\r\n\r\n";

/// The errors of octets that are no request.
pub const BAD_HEAD: &str =
    "HTTP/1.1 400 Bad Request\r\nContent-Length: 117\r\nContent-Type: application/yang-data+json\r\n\r\n{\"ietf-restconf:errors\":{\"error\":[{\"error-app-tag\":\"form\",\"error-tag\":\"malformed-message\",\"error-type\":\"protocol\"}]}}";

pub const CHUNKED: &str =
    "HTTP/1.1 501 Not Implemented\r\nContent-Length: 126\r\nContent-Type: application/yang-data+json\r\n\r\n{\"ietf-restconf:errors\":{\"error\":[{\"error-app-tag\":\"chunked\",\"error-tag\":\"operation-not-supported\",\"error-type\":\"protocol\"}]}}";

pub const TOO_BIG: &str =
    "HTTP/1.1 413 Content Too Large\r\nContent-Length: 107\r\nContent-Type: application/yang-data+json\r\n\r\n{\"ietf-restconf:errors\":{\"error\":[{\"error-app-tag\":\"size\",\"error-tag\":\"too-big\",\"error-type\":\"protocol\"}]}}";

pub const NOT_JSON: &str =
    "HTTP/1.1 400 Bad Request\r\nContent-Length: 120\r\nContent-Type: application/yang-data+json\r\n\r\n{\"ietf-restconf:errors\":{\"error\":[{\"error-app-tag\":\"json\",\"error-tag\":\"malformed-message\",\"error-type\":\"application\"}]}}";

/// The notice of a packet that no half seals.
pub const ACQUIRE: &str =
    "{\"ietf-restconf:notification\":{\"eventTime\":\"1970-01-01T00:00:07Z\",\"ietf-i2nsf-ikeless:sadb-acquire\":{\"ipsec-policy-name\":\"o1\",\"traffic-selector\":{\"inner-protocol\":17,\"local-ports\":[{\"end\":4660,\"start\":4660}],\"local-prefix\":\"10.1.0.5/32\",\"remote-ports\":[{\"end\":53,\"start\":53}],\"remote-prefix\":\"10.2.0.9/32\"}}}}\n";

/// UDP from 10.1.0.5 port 4660 to 10.2.0.9 port 53.
pub const PACKET: [u8; 32] = [
    69, 0, 0, 32, 0, 0, 64, 0, 64, 17, 38, 189, 10, 1, 0, 5, 10, 2, 0, 9, 18, 52, 0, 53, 0, 12, 0,
    0, 97, 98, 99, 100,
];
