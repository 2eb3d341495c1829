// What is known of a request without a facility: its class by the kind of its object, and whether it needs an object.
ghost use Rattle.std.specs.Prelude.{◌≡◌};
ghost use Rattle.rules.specs.Requests.{action_of, class_code, class_of, needs_object};

// The class of a request on an object of this kind: 1 R, 2 W, 3 B, 4 N; 0 where the kind does not have the request.
#[unsafe(no_mangle)]
pub extern "C" fn hv_class(request: u8, kind: u8) -> u8
    ensures { result ≡ class_code (class_of request kind) }
{
    requests::class_code(requests::class_of(request, kind)) as u8
}

// Whether the target of a request is an object; `extra` is the kind that a create makes.
#[unsafe(no_mangle)]
pub extern "C" fn hv_needs_object(request: u8, extra: u8) -> bool
    ensures { result ≡ needs_object (action_of request) extra }
{
    requests::needs_object(requests::action_of(request), extra)
}
