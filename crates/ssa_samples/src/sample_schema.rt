//! The text of the sample schema.

/// A schema with a scalar, a set, a map list, a map, and two atomic values.
pub const SCHEMA: &str =
    "{\"properties\":{\"spec\":{\"properties\":{\"args\":{\"items\":{\"type\":\"string\"},\"type\":\"array\"},\"env\":{\"additionalProperties\":{\"type\":\"string\"},\"type\":\"object\"},\"hosts\":{\"items\":{\"type\":\"string\"},\"type\":\"array\",\"x-kubernetes-list-type\":\"set\"},\"image\":{\"type\":\"string\"},\"limits\":{\"additionalProperties\":{\"type\":\"integer\"},\"type\":\"object\",\"x-kubernetes-map-type\":\"atomic\"},\"ports\":{\"items\":{\"properties\":{\"name\":{\"type\":\"string\"},\"port\":{\"type\":\"integer\"}},\"type\":\"object\"},\"type\":\"array\",\"x-kubernetes-list-map-keys\":[\"name\"],\"x-kubernetes-list-type\":\"map\"},\"replicas\":{\"type\":\"integer\"}},\"type\":\"object\"}},\"type\":\"object\"}";
