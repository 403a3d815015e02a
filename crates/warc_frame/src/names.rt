//! The names of fields, as the standard writes them (ISO 28500:2017, which is WARC 1.1: section 5, named fields).

pub const CONTENT_LENGTH: &str = "Content-Length";

pub const CONTENT_TYPE: &str = "Content-Type";

pub const WARC_TYPE: &str = "WARC-Type";

pub const WARC_RECORD_ID: &str = "WARC-Record-ID";

pub const WARC_DATE: &str = "WARC-Date";

pub const WARC_TARGET_URI: &str = "WARC-Target-URI";

pub const WARC_CONCURRENT_TO: &str = "WARC-Concurrent-To";

pub const WARC_IP_ADDRESS: &str = "WARC-IP-Address";

pub const WARC_REFERS_TO: &str = "WARC-Refers-To";

pub const WARC_REFERS_TO_TARGET_URI: &str = "WARC-Refers-To-Target-URI";

pub const WARC_REFERS_TO_DATE: &str = "WARC-Refers-To-Date";

pub const WARC_FILENAME: &str = "WARC-Filename";

pub const WARC_PROFILE: &str = "WARC-Profile";

pub const WARC_WARCINFO_ID: &str = "WARC-Warcinfo-ID";

pub const WARC_SEGMENT_NUMBER: &str = "WARC-Segment-Number";

pub const WARC_SEGMENT_ORIGIN_ID: &str = "WARC-Segment-Origin-ID";

pub const WARC_SEGMENT_TOTAL_LENGTH: &str = "WARC-Segment-Total-Length";

pub const WARC_BLOCK_DIGEST: &str = "WARC-Block-Digest";

pub const WARC_PAYLOAD_DIGEST: &str = "WARC-Payload-Digest";

pub const WARC_TRUNCATED: &str = "WARC-Truncated";

pub const WARC_IDENTIFIED_PAYLOAD_TYPE: &str = "WARC-Identified-Payload-Type";
